//! What follows from the definitions of `specs/`: a byte stream reads one way, however it is cut,
//! and its lines are those that memcached's doc/protocol.txt tells a client to send, within the
//! profile's limits. A law is the contract of a function that does nothing: it holds for every byte
//! list.
ghost use Rattle.std.specs.Prelude.{◌≡◌, ◌≢◌, ◌↔◌, ◌⊎◌, ℕ, ◌^◌, ◌+◌, ◌-◌, ◌<◌, ◌≤◌, Bool, false, All, IsTrue, List, [], ◌∷◌, ◌++◌, length, codes, decimal};
ghost use Rattle.std.specs.Str.Parse.{IsNumeral, digits_value};
ghost use Rattle.mc_model.specs.declared.command.Command.{Command};
ghost use Rattle.mc_model.specs.declared.command.Command.TheVariants as commands;
ghost use Rattle.mc_model.specs.declared.command.Command.TheVariants.{Cas, Decr, Delete, Flush, Get, Incr, Store};
ghost use Rattle.mc_model.specs.declared.command.Verb.{Verb};
ghost use Rattle.mc_model.specs.declared.command.Verb.TheVariants.{Append, Prepend};
ghost use Rattle.mc_model.specs.declared.item.Data.{Data};
ghost use Rattle.mc_model.specs.declared.key.Key.{Key};
ghost use Rattle.mc_model.specs.declared.key_list.KeyList.{KeyList};
ghost use Rattle.mc_model.specs.declared.name.Name.{Name};
ghost use Rattle.mc_model.specs.declared.reply.Reply.TheVariants.{Refused};
ghost use Rattle.mc_model.specs.declared.reply.TheConstants.WireNo.{BAD_FORMAT, TOO_LARGE};
ghost use Rattle.mc_model.specs.declared.reply.WireNo.{WireNo};
ghost use Rattle.mc_model.specs.declared.request.Request.{Request};
ghost use Rattle.mc_model.specs.declared.request.Request.TheVariants.{Limit, Local, Logged, TooLong};
ghost use Rattle.mc_model.specs.declared.settings.Limits.{Limits};
ghost use Rattle.mc_model.specs.Key.{is_lawful_key};
ghost use Rattle.mc_model.specs.Name.{is_lawful_name};
ghost use Rattle.mc_model.specs.Settings.{AreLawfulLimits};
ghost use Rattle.mc_read.specs.declared.line.Asked.TheVariants.{RefusedBlock};
ghost use Rattle.mc_read.specs.declared.line.TheConstants.{BLOCK_LENGTH, DELTA, FLAGS, LINE_BYTES, UNIQUE};
ghost use Rattle.mc_read.specs.declared.speaker.Speaker.{Speaker};
ghost use Rattle.mc_read.specs.Administering.{asked_by_admin, lines_spoken};
ghost use Rattle.mc_read.specs.Line.{asked};
ghost use Rattle.mc_read.specs.Reading.{Kept, Reads, Swallowing};
ghost use Rattle.mc_read.specs.Sending.{IsLawfulCommand, block_sent, line_sent, noreply_if, sent, setting_sent, verb_name};
ghost use Rattle.mc_read.specs.State.{EndsInRefusal, IsBounded};
ghost use Rattle.mc_read.specs.Text.{IsRequestText, IsUnbroken, body_length};
ghost use Rattle.mc_read.specs.Word.{is_exptime, is_zero, words};

/// Every byte list has a reading, from a tenant's client and from an administrator.
pub fn every_stream_reads()
    ensures { (speaker : Speaker) (bytes : List ℕ) → (requests : List Request) × (rest : List ℕ)
        × Reads (lines_spoken speaker) bytes requests rest }
{}

/// A byte list from the same speaker has only one reading.
pub fn a_stream_reads_one_way()
    ensures { (speaker : Speaker) (bytes : List ℕ) (requests others : List Request)
        (rest left : List ℕ) → Reads (lines_spoken speaker) bytes requests rest →
        Reads (lines_spoken speaker) bytes others left → (requests ≡ others) × (rest ≡ left) }
{}

/// No request text is a proper prefix of another from the same speaker, and a text is that of one
/// request.
pub fn no_text_begins_another()
    ensures { (speaker : Speaker) (text more : List ℕ) (request other : Request) →
        IsRequestText (lines_spoken speaker) text request →
        IsRequestText (lines_spoken speaker) (text ++ more) other → (more ≡ [])
        × (request ≡ other) }
{}

/// The numbers of the profile: the largest number of bytes in a line, and the largest readable
/// length of a block, flags, unique and delta.
pub fn numbers_of_the_profile()
    ensures line { LINE_BYTES ≡ 65536 }
    ensures length { BLOCK_LENGTH ≡ 2147483645 }
    ensures flags { FLAGS ≡ 2 ^ 32 - 1 }
    ensures unique { UNIQUE ≡ 2 ^ 64 - 1 }
    ensures delta { DELTA ≡ 2 ^ 64 - 1 }
{}

/// Each command can be sent: what a client sends for it according to memcached's doc/protocol.txt
/// is the text of that command, with `noreply` and without. The keys are valid, and the numbers
/// within the profile; a retrieval has as many keys as fit into a line of 65,536 bytes and its line
/// feed.
pub fn each_command_can_be_sent()
    ensures store { (verb : Verb) (key : Key) (flags : ℕ) (block : Data) (quiet : Bool) →
        IsTrue (is_lawful_key key) → flags < 2 ^ 32 → length block ≤ 1048576 →
        IsRequestText asked (sent (Store verb key flags block) quiet)
        (Logged (Store verb key flags block) quiet) }
    ensures cas { (key : Key) (flags : ℕ) (block : Data) (unique : ℕ) (quiet : Bool) →
        IsTrue (is_lawful_key key) → flags < 2 ^ 32 → length block ≤ 1048576 → unique < 2 ^ 64 →
        IsRequestText asked (sent (Cas key flags block unique) quiet)
        (Logged (Cas key flags block unique) quiet) }
    ensures get { (keys : KeyList) (uniques : Bool) →
        0 < length keys → All (λ key. IsTrue (is_lawful_key key)) keys →
        length (sent (Get keys uniques) false) ≤ 65537 →
        IsRequestText asked (sent (Get keys uniques) false) (Logged (Get keys uniques) false) }
    ensures delete { (key : Key) (quiet : Bool) → IsTrue (is_lawful_key key) →
        IsRequestText asked (sent (Delete key) quiet) (Logged (Delete key) quiet) }
    ensures incr { (key : Key) (by : ℕ) (quiet : Bool) → IsTrue (is_lawful_key key) → by < 2 ^ 64 →
        IsRequestText asked (sent (Incr key by) quiet) (Logged (Incr key by) quiet) }
    ensures decr { (key : Key) (by : ℕ) (quiet : Bool) → IsTrue (is_lawful_key key) → by < 2 ^ 64 →
        IsRequestText asked (sent (Decr key by) quiet) (Logged (Decr key by) quiet) }
    ensures flush { (quiet : Bool) → IsRequestText asked (sent Flush quiet) (Logged Flush quiet) }
{}

/// What is too long is refused. After 65,537 bytes of a line nothing more is read; data above
/// 1,048,576 bytes are taken off the stream and refused; and a length above 2,147,483,645 can't be
/// read, so that the line alone is refused.
pub fn too_long_is_refused()
    ensures line { (text : List ℕ) → length text ≡ 65537 → IsUnbroken text →
        IsRequestText asked text TooLong }
    ensures data { (verb : Verb) (key : Key) (flags : ℕ) (block : List ℕ) (quiet : Bool) →
        IsTrue (is_lawful_key key) → flags < 2 ^ 32 → 1048576 < length block →
        length block ≤ 2147483645 →
        IsRequestText asked
        (line_sent (verb_name verb ∷ key ∷ decimal flags ∷ codes "0" ∷ decimal (length block) ∷ noreply_if quiet) ++ block_sent block)
        (Local (Refused TOO_LARGE) quiet) }
    ensures length { (verb : Verb) (key : Key) (flags size : ℕ) (quiet : Bool) →
        IsTrue (is_lawful_key key) → flags < 2 ^ 32 → 2147483645 < size → size < 2 ^ 64 →
        IsRequestText asked
        (line_sent (verb_name verb ∷ key ∷ decimal flags ∷ codes "0" ∷ decimal size ∷ noreply_if quiet))
        (Local (Refused BAD_FORMAT) false) }
{}

/// The block of a storage line goes with it, whatever of the line is refused: where the fourth word
/// behind the name spells a length that can be read, exactly that many bytes and the two behind them
/// belong to the line, so data are never read as commands. Where it doesn't, the line is alone.
pub fn a_block_goes_with_its_line()
    ensures store { (line : List ℕ) (verb : Verb) (key flags exptime size : List ℕ)
        (last : List (List ℕ)) → length last ≤ 1 →
        words line ≡ verb_name verb ∷ key ∷ flags ∷ exptime ∷ size ∷ last →
        IsNumeral 10 size → digits_value 10 size ≤ 2147483645 →
        body_length (asked line) ≡ digits_value 10 size + 2 }
    ensures cas { (line : List ℕ) (key flags exptime size unique : List ℕ)
        (last : List (List ℕ)) → length last ≤ 1 →
        words line ≡ codes "cas" ∷ key ∷ flags ∷ exptime ∷ size ∷ unique ∷ last →
        IsNumeral 10 size → digits_value 10 size ≤ 2147483645 →
        body_length (asked line) ≡ digits_value 10 size + 2 }
    ensures store_alone { (line : List ℕ) (verb : Verb) (key flags exptime size : List ℕ)
        (last : List (List ℕ)) → length last ≤ 1 →
        words line ≡ verb_name verb ∷ key ∷ flags ∷ exptime ∷ size ∷ last →
        (IsNumeral 10 size → digits_value 10 size ≤ 2147483645 → ⊥) →
        body_length (asked line) ≡ 0 }
    ensures cas_alone { (line : List ℕ) (key flags exptime size unique : List ℕ)
        (last : List (List ℕ)) → length last ≤ 1 →
        words line ≡ codes "cas" ∷ key ∷ flags ∷ exptime ∷ size ∷ unique ∷ last →
        (IsNumeral 10 size → digits_value 10 size ≤ 2147483645 → ⊥) →
        body_length (asked line) ≡ 0 }
{}

/// What a reader may keep while no request is whole is a line with its line feed, and a block with
/// the two bytes behind it but for one: 65,537 bytes and 1,048,577, so 1,114,114, and no more.
pub fn a_reader_keeps_one_request_at_most()
    ensures kept { (bytes : List ℕ) → IsBounded (Kept bytes) ↔ (length bytes ≤ 1114114) }
    ensures swallowing { (request : Request) (left : ℕ) (bytes : List ℕ) →
        IsBounded (Swallowing request left bytes) ↔ (length bytes ≤ 1114114) }
{}

/// A refused block is swallowed whatever refused it, and whatever its length: where a line names a
/// block that is refused, and less has come than the block and the two bytes behind it, the reader's
/// bytes end in that refusal, with that many bytes still to come. `Reader::next` then keeps none.
pub fn a_begun_refused_block_is_swallowed()
    ensures { (speaker : Speaker) (line part : List ℕ) (size : ℕ) (refusal : WireNo)
        (quiet : Bool) →
        IsUnbroken line → length line ≤ 65536 →
        lines_spoken speaker line ≡ RefusedBlock size refusal quiet → length part < size + 2 →
        EndsInRefusal (lines_spoken speaker) (line ++ 10 ∷ part) (Local (Refused refusal) quiet)
        (size + 2 - length part) }
{}

/// Only valid commands are read: the keys are valid, and the numbers and the data within the
/// profile. So each limit of the profile is exact, since up to it each command can be sent.
pub fn only_lawful_commands_are_read()
    ensures { (text : List ℕ) (command : Command) (quiet : Bool) →
        IsRequestText asked text (Logged command quiet) → IsLawfulCommand command }
{}

/// No command expires: a line that becomes a command has an exptime of zero if it has one, except
/// for `append` and `prepend`, which ignore it.
pub fn no_command_expires()
    ensures storage { (line body key flags exptime : List ℕ) (more : List (List ℕ)) (verb : Verb)
        (command : Command) (quiet : Bool) →
        IsUnbroken line → words line ≡ verb_name verb ∷ key ∷ flags ∷ exptime ∷ more →
        verb ≢ Append → verb ≢ Prepend →
        IsRequestText asked (line ++ 10 ∷ body) (Logged command quiet) → IsTrue (is_zero exptime) }
    ensures cas { (line body key flags exptime : List ℕ) (more : List (List ℕ)) (command : Command)
        (quiet : Bool) →
        IsUnbroken line → words line ≡ codes "cas" ∷ key ∷ flags ∷ exptime ∷ more →
        IsRequestText asked (line ++ 10 ∷ body) (Logged command quiet) → IsTrue (is_zero exptime) }
    ensures flush { (line body exptime : List ℕ) (more : List (List ℕ)) (command : Command)
        (quiet : Bool) →
        IsUnbroken line → words line ≡ codes "flush_all" ∷ exptime ∷ more →
        exptime ≢ codes "noreply" →
        IsRequestText asked (line ++ 10 ∷ body) (Logged command quiet) → IsTrue (is_zero exptime) }
{}

/// An exptime is one decimal digit or more, of any count, with or without a minus before them, and
/// it is zero exactly if these digits spell the number 0, however long they are.
pub fn exptimes_are_numbers_of_any_length()
    ensures spelled { (word : List ℕ) →
        IsTrue (is_exptime word)
        ↔ (IsNumeral 10 word
        ⊎ ((digits : List ℕ) × (word ≡ 45 ∷ digits) × IsNumeral 10 digits)) }
    ensures zero { (digits : List ℕ) → IsNumeral 10 digits →
        IsTrue (is_zero digits) ↔ (digits_value 10 digits ≡ 0) }
    ensures minus { (digits : List ℕ) → IsNumeral 10 digits →
        IsTrue (is_zero (45 ∷ digits)) ↔ (digits_value 10 digits ≡ 0) }
{}

/// Only administrators set quotas: no line of a tenant's client asks for that, by a tenant's name
/// or as a command of its own.
pub fn only_administrators_set_quotas()
    ensures requests { (text : List ℕ) (name : Name) (limits : Limits) (quiet : Bool) →
        IsRequestText asked text (Limit name limits quiet) → ⊥ }
    ensures commands { (text : List ℕ) (limits : Limits) (quiet : Bool) →
        IsRequestText asked text (Logged (commands.Limit limits) quiet) → ⊥ }
{}

/// Quotas are set by a line of an administrator's: each valid name with valid quotas can be sent,
/// with `noreply` and without, and no other quotas, and none under another name, are read.
pub fn quotas_are_set_by_name()
    ensures sent { (name : Name) (items bytes : ℕ) (quiet : Bool) →
        IsTrue (is_lawful_name name) → 1 ≤ items → items ≤ 1048576 → 1 ≤ bytes →
        bytes ≤ 1073741824 →
        IsRequestText asked_by_admin (setting_sent name items bytes quiet)
        (Limit name (record { items = items; bytes = bytes }) quiet) }
    ensures only { (text : List ℕ) (name : Name) (limits : Limits) (quiet : Bool) →
        IsRequestText asked_by_admin text (Limit name limits quiet) →
        IsTrue (is_lawful_name name) × AreLawfulLimits limits }
{}

/// An administrator sends no command for a table of its own: no line asks for one, and none has a
/// block.
pub fn administrators_send_no_command()
    ensures commands { (text : List ℕ) (command : Command) (quiet : Bool) →
        IsRequestText asked_by_admin text (Logged command quiet) → ⊥ }
    ensures blocks { (line : List ℕ) → body_length (asked_by_admin line) ≡ 0 }
{}
