//! Which line is which command: the words of a line, however long they are, spell what the command
//! has.
ghost use Rattle.std.specs.Prelude.{◌≡◌, ◌≢◌, ◌↔◌, ◌⊎◌, ◌||◌, ◌+◌, ℕ, ◌<◌, ◌≤◌, Some, is_some, Bool, true, false, IsTrue, List, [], ◌∷◌, ◌++◌, codes, drop, length};
ghost use Rattle.mc_model.specs.declared.command.Command.{Command};
ghost use Rattle.mc_model.specs.declared.command.Verb.{Verb};
ghost use Rattle.mc_model.specs.declared.name.Name.{Name};
ghost use Rattle.mc_model.specs.declared.reply.Reply.{Reply};
ghost use Rattle.mc_model.specs.declared.reply.Reply.TheVariants.{Refused, Version};
ghost use Rattle.mc_model.specs.declared.reply.TheConstants.WireNo.{BAD_BLOCK, BAD_FORMAT, NO_EXPIRY, TOO_LARGE};
ghost use Rattle.mc_model.specs.declared.reply.WireNo.{WireNo};
ghost use Rattle.mc_model.specs.declared.request.Request.{Request};
ghost use Rattle.mc_model.specs.declared.request.Request.TheVariants.{Limit, Local, Logged, Quit, TooLong};
ghost use Rattle.mc_model.specs.declared.settings.Limits.{Limits};
ghost use Rattle.mc_model.specs.Key.{is_lawful_key};
ghost use Rattle.mc_model.specs.Name.{is_lawful_name};
ghost use Rattle.mc_model.specs.Number.{number_up_to};
ghost use Rattle.mc_model.specs.Settings.{AreLawfulLimits};
ghost use Rattle.mc_laws.specs.Lines.{IsLimitLineOf, IsLineOf};
ghost use Rattle.mc_read.specs.Administering.{asked_by_admin};
ghost use Rattle.mc_read.specs.Line.{asked, ignores_exptime};
ghost use Rattle.mc_read.specs.Reading.{ends_stream};
ghost use Rattle.mc_read.specs.declared.line.Asked.TheVariants.{LineOnly, RefusedBlock, StoredBlock};
ghost use Rattle.mc_read.specs.declared.line.Header.{Header};
ghost use Rattle.mc_read.specs.declared.line.Storage.TheVariants.{Plain};
ghost use Rattle.mc_read.specs.declared.line.TheConstants.{BLOCK_LENGTH, FLAGS, UNIQUE};
ghost use Rattle.mc_read.specs.Sending.{IsLawfulCommand, noreply_if, verb_name};
ghost use Rattle.mc_read.specs.Text.{IsRequestText, IsUnbroken};
ghost use Rattle.mc_read.specs.Word.{is_exptime, is_zero, words};

/// A line that is read as a command is that which its words spell, and each valid command is read
/// from every line that spells it, of at most 65,536 bytes. A number is that of its whole word,
/// however many digits it has. The command is quiet exactly if the line ends in `noreply`, which a
/// retrieval doesn't take.
pub fn a_line_is_what_its_words_spell()
    ensures only { (line body : List ℕ) (command : Command) (quiet : Bool) → IsUnbroken line →
        IsRequestText asked (line ++ 10 ∷ body) (Logged command quiet) →
        IsLineOf command quiet (words line) body }
    ensures each { (line body : List ℕ) (command : Command) (quiet : Bool) → IsUnbroken line →
        length line ≤ 65536 → IsLawfulCommand command →
        IsLineOf command quiet (words line) body →
        IsRequestText asked (line ++ 10 ∷ body) (Logged command quiet) }
{}

/// An administrator's line that is read as quotas sets those that its words spell, and valid quotas
/// are read, under a valid name, from every line that spells them, of at most 65,536 bytes. A
/// number is that of its whole word, however many digits it has.
pub fn quotas_are_what_their_words_spell()
    ensures only { (line body : List ℕ) (name : Name) (limits : Limits) (quiet : Bool) →
        IsUnbroken line →
        IsRequestText asked_by_admin (line ++ 10 ∷ body) (Limit name limits quiet) →
        IsLimitLineOf name limits quiet (words line) body }
    ensures each { (line body : List ℕ) (name : Name) (limits : Limits) (quiet : Bool) →
        IsUnbroken line → length line ≤ 65536 → IsTrue (is_lawful_name name) →
        AreLawfulLimits limits → IsLimitLineOf name limits quiet (words line) body →
        IsRequestText asked_by_admin (line ++ 10 ∷ body) (Limit name limits quiet) }
{}

/// A stream ends at `quit` and at a line that is too long, and at no other request.
pub fn quit_and_a_long_line_end_a_stream()
    ensures { (request : Request) →
        (ends_stream request ≡ true) ↔ ((request ≡ Quit) ⊎ (request ≡ TooLong)) }
{}

/// A tenant's line is read as `quit` or `version` exactly if it is that one word. What else is
/// answered without the log is a refusal, and a line that has come whole isn't too long.
pub fn quit_and_version_are_lines_of_one_word()
    ensures quit { (line : List ℕ) →
        (asked line ≡ LineOnly Quit) ↔ (words line ≡ codes "quit" ∷ []) }
    ensures version { (line : List ℕ) (quiet : Bool) →
        (asked line ≡ LineOnly (Local Version quiet))
        ↔ ((words line ≡ codes "version" ∷ []) × (quiet ≡ false)) }
    ensures refusals { (line : List ℕ) (reply : Reply) (quiet : Bool) →
        asked line ≡ LineOnly (Local reply quiet) →
        (reply ≡ Version) ⊎ ((refusal : WireNo) × (reply ≡ Refused refusal)) }
    ensures long { (line : List ℕ) → asked line ≢ LineOnly TooLong }
{}

/// The same of an administrator's lines.
pub fn quit_and_version_are_administrators_lines_of_one_word()
    ensures quit { (line : List ℕ) →
        (asked_by_admin line ≡ LineOnly Quit) ↔ (words line ≡ codes "quit" ∷ []) }
    ensures version { (line : List ℕ) (quiet : Bool) →
        (asked_by_admin line ≡ LineOnly (Local Version quiet))
        ↔ ((words line ≡ codes "version" ∷ []) × (quiet ≡ false)) }
    ensures refusals { (line : List ℕ) (reply : Reply) (quiet : Bool) →
        asked_by_admin line ≡ LineOnly (Local reply quiet) →
        (reply ≡ Version) ⊎ ((refusal : WireNo) × (reply ≡ Refused refusal)) }
    ensures long { (line : List ℕ) → asked_by_admin line ≢ LineOnly TooLong }
{}

/// Of a storage line with a readable length and as many words as its command has, the first fault
/// in this order is reported: a last word other than `noreply`, or a malformed key, flags or
/// exptime, which `noreply` doesn't keep quiet; an exptime other than zero, unless the command
/// leaves the item's as it is; data that are too large.
pub fn the_first_fault_of_a_storage_line_is_reported()
    ensures last { (line key flags exptime size last : List ℕ) (verb : Verb) (long : ℕ) →
        words line ≡ verb_name verb ∷ key ∷ flags ∷ exptime ∷ size ∷ last ∷ [] →
        number_up_to BLOCK_LENGTH size ≡ Some long →
        last ≢ codes "noreply" → asked line ≡ RefusedBlock long BAD_FORMAT false }
    ensures format { (line key flags exptime size : List ℕ) (verb : Verb) (quiet : Bool)
        (long : ℕ) →
        words line ≡ verb_name verb ∷ key ∷ flags ∷ exptime ∷ size ∷ noreply_if quiet →
        number_up_to BLOCK_LENGTH size ≡ Some long →
        (is_lawful_key key ≡ false) ⊎ (is_some (number_up_to FLAGS flags) ≡ false)
        ⊎ (is_exptime exptime ≡ false) →
        asked line ≡ RefusedBlock long BAD_FORMAT false }
    ensures expiry { (line key flags exptime size : List ℕ) (verb : Verb) (quiet : Bool)
        (long : ℕ) →
        words line ≡ verb_name verb ∷ key ∷ flags ∷ exptime ∷ size ∷ noreply_if quiet →
        number_up_to BLOCK_LENGTH size ≡ Some long → is_lawful_key key ≡ true →
        is_some (number_up_to FLAGS flags) ≡ true → is_exptime exptime ≡ true →
        ignores_exptime (Some (Plain verb)) ≡ false → is_zero exptime ≡ false →
        asked line ≡ RefusedBlock long NO_EXPIRY quiet }
    ensures size { (line key flags exptime size : List ℕ) (verb : Verb) (quiet : Bool) (long : ℕ) →
        words line ≡ verb_name verb ∷ key ∷ flags ∷ exptime ∷ size ∷ noreply_if quiet →
        number_up_to BLOCK_LENGTH size ≡ Some long → is_lawful_key key ≡ true →
        is_some (number_up_to FLAGS flags) ≡ true → is_exptime exptime ≡ true →
        (ignores_exptime (Some (Plain verb)) || is_zero exptime) ≡ true → 1048576 < long →
        asked line ≡ RefusedBlock long TOO_LARGE quiet }
{}

/// The same of a line of `cas`, whose unique must be a number too, and whose exptime must be zero.
pub fn the_first_fault_of_a_cas_line_is_reported()
    ensures last { (line key flags exptime size unique last : List ℕ) (bytes : ℕ) →
        words line ≡ codes "cas" ∷ key ∷ flags ∷ exptime ∷ size ∷ unique ∷ last ∷ [] →
        number_up_to BLOCK_LENGTH size ≡ Some bytes →
        last ≢ codes "noreply" → asked line ≡ RefusedBlock bytes BAD_FORMAT false }
    ensures format { (line key flags exptime size unique : List ℕ) (quiet : Bool) (bytes : ℕ) →
        words line ≡ codes "cas" ∷ key ∷ flags ∷ exptime ∷ size ∷ unique ∷ noreply_if quiet →
        number_up_to BLOCK_LENGTH size ≡ Some bytes →
        (is_lawful_key key ≡ false) ⊎ (is_some (number_up_to FLAGS flags) ≡ false)
        ⊎ (is_exptime exptime ≡ false) ⊎ (is_some (number_up_to UNIQUE unique) ≡ false) →
        asked line ≡ RefusedBlock bytes BAD_FORMAT false }
    ensures expiry { (line key flags exptime size unique : List ℕ) (quiet : Bool) (bytes : ℕ) →
        words line ≡ codes "cas" ∷ key ∷ flags ∷ exptime ∷ size ∷ unique ∷ noreply_if quiet →
        number_up_to BLOCK_LENGTH size ≡ Some bytes → is_lawful_key key ≡ true →
        is_some (number_up_to FLAGS flags) ≡ true → is_exptime exptime ≡ true →
        is_some (number_up_to UNIQUE unique) ≡ true → is_zero exptime ≡ false →
        asked line ≡ RefusedBlock bytes NO_EXPIRY quiet }
    ensures size { (line key flags exptime size unique : List ℕ) (quiet : Bool) (bytes : ℕ) →
        words line ≡ codes "cas" ∷ key ∷ flags ∷ exptime ∷ size ∷ unique ∷ noreply_if quiet →
        number_up_to BLOCK_LENGTH size ≡ Some bytes → is_lawful_key key ≡ true →
        is_some (number_up_to FLAGS flags) ≡ true → is_exptime exptime ≡ true →
        is_some (number_up_to UNIQUE unique) ≡ true → is_zero exptime ≡ true →
        1048576 < bytes → asked line ≡ RefusedBlock bytes TOO_LARGE quiet }
{}

/// A block that its line refuses is read to its end, with the two bytes after it, whatever they
/// are, and refused as the line says. A block that could be stored, but isn't followed by a
/// carriage return and a line feed, is refused as a bad data chunk, quietly if its line ends in
/// `noreply`.
pub fn a_block_that_is_not_stored_is_refused()
    ensures refused { (line body : List ℕ) (long : ℕ) (refusal : WireNo) (quiet : Bool) →
        IsUnbroken line → length line ≤ 65536 → asked line ≡ RefusedBlock long refusal quiet →
        length body ≡ long + 2 →
        IsRequestText asked (line ++ 10 ∷ body) (Local (Refused refusal) quiet) }
    ensures chunk { (line body : List ℕ) (header : Header) → IsUnbroken line →
        length line ≤ 65536 → asked line ≡ StoredBlock header →
        length body ≡ header.length + 2 → drop header.length body ≢ codes "\r\n" →
        IsRequestText asked (line ++ 10 ∷ body) (Local (Refused BAD_BLOCK) header.quiet) }
{}
