//! What commands do to one tenant's table and what their replies are. Each law holds for all quotas
//! and every list of commands.
ghost use Rattle.std.specs.FinMap as map;
ghost use Rattle.std.specs.Prelude.{◌≡◌, ◌≢◌, ◌↔◌, ◌⊎◌, ℕ, ◌+◌, ◌-◌, ◌%◌, ◌^◌, ◌<◌, ◌≤◌, Bool, true, false, decimal, List, [], ◌∷◌, ◌++◌, length, Some, None, IsSome, IsNone, IsSomeAnd};
ghost use Rattle.std.specs.Str.Parse.{IsNumeral, digits_value};
ghost use Rattle.mc_model.specs.declared.command.Command.{Command};
ghost use Rattle.mc_model.specs.declared.command.Command.TheVariants.{Store, Cas, Get, Delete, Incr, Decr, Flush, Limit};
ghost use Rattle.mc_model.specs.declared.command.Verb.{Verb};
ghost use Rattle.mc_model.specs.declared.command.Verb.TheVariants.{Set, Add, Replace, Append, Prepend};
ghost use Rattle.mc_model.specs.declared.item.Data.{Data};
ghost use Rattle.mc_model.specs.declared.item.Item.{Item};
ghost use Rattle.mc_model.specs.declared.item.TheConstants.{DATA_BYTES};
ghost use Rattle.mc_model.specs.declared.key.Key.{Key};
ghost use Rattle.mc_model.specs.declared.key_list.KeyList.{KeyList};
ghost use Rattle.mc_model.specs.declared.reply.Reply.TheVariants.{Stored, NotStored, Exists, NotFound, Deleted, Ok, Number, Values, Version, Refused};
ghost use Rattle.mc_model.specs.declared.reply.TheConstants.WireNo.{NOT_A_NUMBER, NO_ROOM, TOO_LARGE};
ghost use Rattle.mc_model.specs.declared.reply.Value.{Value};
ghost use Rattle.mc_model.specs.declared.reply.WireNo.{WireNo};
ghost use Rattle.mc_model.specs.declared.settings.Limits.{Limits};
ghost use Rattle.mc_model.specs.Effect.{effect, is_acceptance, is_refusal};
ghost use Rattle.mc_model.specs.History.{StandsForMore, accepts, after, answer, changes, limits_after};
ghost use Rattle.mc_laws.specs.Words.{IsLetThrough, IsStoredBy, IsUntouched, IsWithinQuotas, KeepsLimits, effect_after};
ghost use Rattle.mc_model.specs.Number.{numeric_value};
ghost use Rattle.mc_model.specs.State.{TableState, next_state};
ghost use Rattle.mc_model.specs.Table.{Table, count_of, use_of};

/// A list of commands acts from its front: the table is empty at first, and each command acts,
/// under the quotas, on what those before it have left, a change with the next unique. So no list
/// has more changes than commands.
pub fn commands_act_in_order()
    ensures nothing { (opening : Limits) → after opening [] ≡ map.empty }
    ensures no_change { (opening : Limits) → changes opening [] ≡ 0 }
    ensures reply { (opening : Limits) (list : List Command) (command : Command) →
        answer opening list command
        ≡ (effect (limits_after opening list) (after opening list)
        (changes opening list + 1) command).reply }
    ensures table { (opening : Limits) (list : List Command) (command : Command) →
        after opening (list ++ command ∷ [])
        ≡ (effect (limits_after opening list) (after opening list)
        (changes opening list + 1) command).table }
    ensures change { (opening : Limits) (list : List Command) (command : Command) →
        accepts opening list command ≡ true →
        changes opening (list ++ command ∷ []) ≡ changes opening list + 1 }
    ensures refusal { (opening : Limits) (list : List Command) (command : Command) →
        accepts opening list command ≡ false →
        changes opening (list ++ command ∷ []) ≡ changes opening list }
    ensures at_most { (opening : Limits) (list : List Command) →
        changes opening list ≤ length list }

    // One step of a table that stands for a list.
    ensures stands { (state : TableState) (command : Command) →
        StandsForMore state command (next_state state command) }
{}

/// What counts against the quotas: the items, and the bytes of their keys and data. New data count
/// in place of the old, and what is removed no longer counts.
pub fn keys_and_data_count()
    ensures nothing { (use_of map.empty ≡ 0) × (count_of map.empty ≡ 0) }
    ensures added { (table : Table) (key : Key) (item : Item) → map.get table key ≡ None →
        (use_of (map.insert table key item) ≡ use_of table + (length key + length item.block))
        × (count_of (map.insert table key item) ≡ count_of table + 1) }
    ensures replaced { (table : Table) (key : Key) (old item : Item) →
        map.get table key ≡ Some old →
        (use_of (map.insert table key item) + length old.block ≡ use_of table + length item.block)
        × (count_of (map.insert table key item) ≡ count_of table) }
    ensures taken_out { (table : Table) (key : Key) (old : Item) → map.get table key ≡ Some old →
        (use_of (map.remove table key) + (length key + length old.block) ≡ use_of table)
        × (count_of (map.remove table key) + 1 ≡ count_of table) }
{}

/// A command that names a key leaves what every other key holds as it is.
pub fn commands_leave_other_keys()
    ensures store { (opening : Limits) (list : List Command) (verb : Verb) (key other : Key)
        (flags : ℕ) (block : Data) → other ≢ key →
        map.get (after opening (list ++ Store verb key flags block ∷ [])) other
        ≡ map.get (after opening list) other }
    ensures cas { (opening : Limits) (list : List Command) (key other : Key) (flags unique : ℕ)
        (block : Data) → other ≢ key →
        map.get (after opening (list ++ Cas key flags block unique ∷ [])) other
        ≡ map.get (after opening list) other }
    ensures delete { (opening : Limits) (list : List Command) (key other : Key) → other ≢ key →
        map.get (after opening (list ++ Delete key ∷ [])) other
        ≡ map.get (after opening list) other }
    ensures incr { (opening : Limits) (list : List Command) (key other : Key) (by : ℕ) →
        other ≢ key →
        map.get (after opening (list ++ Incr key by ∷ [])) other
        ≡ map.get (after opening list) other }
    ensures decr { (opening : Limits) (list : List Command) (key other : Key) (by : ℕ) →
        other ≢ key →
        map.get (after opening (list ++ Decr key by ∷ [])) other
        ≡ map.get (after opening list) other }
{}

/// The quotas are those that the last command that sets them has set, or else those that the table
/// was opened with. Such a command is answered with OK and is no change, and the items stay.
pub fn quotas_are_those_set_last()
    ensures opening { (opening : Limits) (list : List Command) → KeepsLimits list →
        limits_after opening list ≡ opening }
    ensures set { (opening new : Limits) (earlier later : List Command) → KeepsLimits later →
        limits_after opening (earlier ++ Limit new ∷ later) ≡ new }
    ensures ok { (opening new : Limits) (list : List Command) →
        answer opening list (Limit new) ≡ Ok }
    ensures items { (opening new : Limits) (list : List Command) →
        after opening (list ++ Limit new ∷ []) ≡ after opening list }
    ensures uniques { (opening new : Limits) (list : List Command) →
        changes opening (list ++ Limit new ∷ []) ≡ changes opening list }
{}

/// A command that is accepted leaves no more bytes and no more items than the quotas allow, and one
/// that isn't leaves no more than there were. So a table is within its tenant's quotas as long as
/// no command sets others.
///
/// The quotas refuse a command exactly when it would be accepted under others and the table that it
/// would leave then has more than they allow. A set would leave the table with its item.
pub fn quotas_hold()
    ensures within { (opening : Limits) (list : List Command) → KeepsLimits list →
        IsWithinQuotas opening list }
    ensures accepted { (opening : Limits) (list : List Command) (command : Command) →
        accepts opening list command ≡ true →
        IsWithinQuotas opening (list ++ command ∷ []) }
    ensures others { (opening : Limits) (list : List Command) (command : Command) →
        accepts opening list command ≡ false →
        (use_of (after opening (list ++ command ∷ [])) ≤ use_of (after opening list))
        × (count_of (after opening (list ++ command ∷ [])) ≤ count_of (after opening list)) }
    ensures refused { (opening other : Limits) (list : List Command) (command : Command) →
        let would = effect other (after opening list) (changes opening list + 1) command in
        would.reply ≢ Refused NO_ROOM →
        (answer opening list command ≡ Refused NO_ROOM)
        ↔ ((is_acceptance would.reply ≡ true)
        × (((limits_after opening list).bytes < use_of would.table)
        ⊎ ((limits_after opening list).items < count_of would.table))) }
    ensures set { (opening : Limits) (list : List Command) (key : Key) (flags : ℕ) (block : Data) →
        let next = map.insert (after opening list) key
        (record { flags = flags; block = block; unique = changes opening list + 1 }) in
        (answer opening list (Store Set key flags block) ≡ Refused NO_ROOM)
        ↔ (((limits_after opening list).bytes < use_of next)
        ⊎ ((limits_after opening list).items < count_of next)) }
{}

/// A get shows what is held under a key, and gets its unique too. Several keys are shown as if each
/// were requested alone, in the line's order: one that isn't held is left out, and one that is
/// given twice is shown twice.
pub fn get_shows_what_is_held()
    ensures gets { (opening : Limits) (list : List Command) (key : Key) (item : Item) →
        map.get (after opening list) key ≡ Some item →
        answer opening list (Get (key ∷ []) true)
        ≡ Values (record {
          key = key;
          flags = item.flags;
          block = item.block;
          unique = Some
              item.unique;
        } ∷ []) }
    ensures get { (opening : Limits) (list : List Command) (key : Key) (item : Item) →
        map.get (after opening list) key ≡ Some item →
        answer opening list (Get (key ∷ []) false)
        ≡ Values (record { key = key; flags = item.flags; block = item.block; unique = None }
        ∷ []) }
    ensures absent { (opening : Limits) (list : List Command) (key : Key) (uniques : Bool) →
        map.get (after opening list) key ≡ None →
        answer opening list (Get (key ∷ []) uniques) ≡ Values [] }
    ensures several { (opening : Limits) (list : List Command) (keys more : KeyList)
        (uniques : Bool) (found rest : List Value) →
        answer opening list (Get keys uniques) ≡ Values found →
        answer opening list (Get more uniques) ≡ Values rest →
        answer opening list (Get (keys ++ more) uniques) ≡ Values (found ++ rest) }
{}

/// A set is stored, or the quotas refuse it. A get after a set that was stored returns its flags
/// and data and the unique that it got, if no command in between has changed or removed the key.
pub fn get_after_set()
    ensures answered { (opening : Limits) (list : List Command) (key : Key) (flags : ℕ)
        (block : Data) →
        (answer opening list (Store Set key flags block) ≡ Stored)
        ⊎ (answer opening list (Store Set key flags block) ≡ Refused NO_ROOM) }
    ensures shown { (opening : Limits) (earlier between : List Command) (key : Key) (flags : ℕ)
        (block : Data) →
        answer opening earlier (Store Set key flags block) ≡ Stored →
        IsUntouched opening (earlier ++ Store Set key flags block ∷ []) key between →
        answer opening (earlier ++ Store Set key flags block ∷ between) (Get (key ∷ []) true)
        ≡ Values (record {
          key = key;
          flags = flags;
          block = block;
          unique = Some
              (changes opening earlier + 1);
        } ∷ []) }
{}

/// A get changes nothing: what comes after it, including each reply, is as if it hadn't been sent.
pub fn get_changes_nothing()
    ensures table { (opening : Limits) (earlier later : List Command) (keys : KeyList)
        (uniques : Bool) →
        after opening (earlier ++ Get keys uniques ∷ later) ≡ after opening (earlier ++ later) }
    ensures uniques { (opening : Limits) (earlier later : List Command) (keys : KeyList)
        (uniques : Bool) →
        changes opening (earlier ++ Get keys uniques ∷ later) ≡ changes opening (earlier ++ later) }
    ensures answers { (opening : Limits) (earlier later : List Command) (keys : KeyList)
        (uniques : Bool) (next : Command) →
        answer opening (earlier ++ Get keys uniques ∷ later) next
        ≡ answer opening (earlier ++ later) next }
{}

/// A refused command changes nothing: what comes after it, including each reply, is as if it hadn't
/// been sent. A command is refused if its reply is NOT_STORED, EXISTS, NOT_FOUND or an error.
pub fn refusals_change_nothing()
    ensures refusals { (error : WireNo) →
        ((is_refusal NotStored ≡ true) × (is_refusal Exists ≡ true))
        × ((is_refusal NotFound ≡ true) × (is_refusal (Refused error) ≡ true)) }
    ensures no_refusals { (number : ℕ) (found : List Value) →
        ((is_refusal Stored ≡ false) × (is_refusal Deleted ≡ false))
        × ((is_refusal Ok ≡ false) × (is_refusal (Number number) ≡ false))
        × ((is_refusal (Values found) ≡ false) × (is_refusal Version ≡ false)) }
    ensures table { (opening : Limits) (earlier later : List Command) (command : Command) →
        is_refusal (answer opening earlier command) ≡ true →
        after opening (earlier ++ command ∷ later) ≡ after opening (earlier ++ later) }
    ensures uniques { (opening : Limits) (earlier later : List Command) (command : Command) →
        is_refusal (answer opening earlier command) ≡ true →
        changes opening (earlier ++ command ∷ later) ≡ changes opening (earlier ++ later) }
    ensures answers { (opening : Limits) (earlier later : List Command) (command next : Command) →
        is_refusal (answer opening earlier command) ≡ true →
        answer opening (earlier ++ command ∷ later) next ≡ answer opening (earlier ++ later) next }
{}

/// A cas with the unique that a gets showed is let through exactly when no command in between has
/// changed or removed its key. It is then a set, which the quotas may refuse. Otherwise the item
/// exists with another unique, or isn't found.
pub fn cas_checks_and_sets()
    ensures let_through { (opening : Limits) (earlier between : List Command) (key : Key)
        (shown : Value) (unique flags : ℕ) (block : Data) →
        answer opening earlier (Get (key ∷ []) true) ≡ Values (shown ∷ []) →
        shown.unique ≡ Some unique →
        IsLetThrough (answer opening (earlier ++ between) (Cas key flags block unique))
        ↔ IsUntouched opening earlier key between }
    ensures set { (opening : Limits) (list : List Command) (key : Key) (unique flags : ℕ)
        (block : Data) →
        IsLetThrough (answer opening list (Cas key flags block unique)) →
        effect_after opening list (Cas key flags block unique)
        ≡ effect_after opening list (Store Set key flags block) }
    ensures otherwise { (opening : Limits) (list : List Command) (key : Key) (unique flags : ℕ)
        (block : Data) →
        IsLetThrough (answer opening list (Cas key flags block unique))
        ⊎ ((answer opening list (Cas key flags block unique) ≡ Exists)
        ⊎ (answer opening list (Cas key flags block unique) ≡ NotFound)) }
    ensures exists { (opening : Limits) (list : List Command) (key : Key) (unique flags : ℕ)
        (block : Data) →
        (answer opening list (Cas key flags block unique) ≡ Exists)
        ↔ IsSomeAnd (map.get (after opening list) key) (λ old. old.unique ≢ unique) }
    ensures not_found { (opening : Limits) (list : List Command) (key : Key) (unique flags : ℕ)
        (block : Data) →
        (answer opening list (Cas key flags block unique) ≡ NotFound)
        ↔ (map.get (after opening list) key ≡ None) }
{}

/// Add and replace are complements. If the key is held, replace is a set and add isn't stored; if
/// it isn't held, add is a set and replace isn't stored.
pub fn add_and_replace_are_complements()
    ensures held { (opening : Limits) (list : List Command) (key : Key) (flags : ℕ) (block : Data) →
        IsSome (map.get (after opening list) key) →
        (answer opening list (Store Add key flags block) ≡ NotStored)
        × (effect_after opening list (Store Replace key flags block)
        ≡ effect_after opening list (Store Set key flags block)) }
    ensures absent { (opening : Limits) (list : List Command) (key : Key) (flags : ℕ)
        (block : Data) →
        IsNone (map.get (after opening list) key) →
        (answer opening list (Store Replace key flags block) ≡ NotStored)
        × (effect_after opening list (Store Add key flags block)
        ≡ effect_after opening list (Store Set key flags block)) }
{}

/// An append or a prepend to a key that is held is a set of the joined data with the old flags, and
/// is refused as too large exactly when those are too many bytes. On a key that isn't held it isn't
/// stored.
pub fn joins_set_the_joined_data()
    ensures append { (opening : Limits) (list : List Command) (key : Key) (old : Item) (flags : ℕ)
        (block : Data) →
        map.get (after opening list) key ≡ Some old → length old.block + length block ≤ DATA_BYTES →
        effect_after opening list (Store Append key flags block)
        ≡ effect_after opening list (Store Set key old.flags (old.block ++ block)) }
    ensures prepend { (opening : Limits) (list : List Command) (key : Key) (old : Item) (flags : ℕ)
        (block : Data) →
        map.get (after opening list) key ≡ Some old → length old.block + length block ≤ DATA_BYTES →
        effect_after opening list (Store Prepend key flags block)
        ≡ effect_after opening list (Store Set key old.flags (block ++ old.block)) }
    ensures append_too_large { (opening : Limits) (list : List Command) (key : Key) (flags : ℕ)
        (block : Data) →
        (answer opening list (Store Append key flags block) ≡ Refused TOO_LARGE)
        ↔ IsSomeAnd (map.get (after opening list) key)
        (λ old. DATA_BYTES < length old.block + length block) }
    ensures prepend_too_large { (opening : Limits) (list : List Command) (key : Key) (flags : ℕ)
        (block : Data) →
        (answer opening list (Store Prepend key flags block) ≡ Refused TOO_LARGE)
        ↔ IsSomeAnd (map.get (after opening list) key)
        (λ old. DATA_BYTES < length old.block + length block) }
    ensures absent { (opening : Limits) (list : List Command) (key : Key) (flags : ℕ)
        (block : Data) →
        IsNone (map.get (after opening list) key) →
        (answer opening list (Store Append key flags block) ≡ NotStored)
        × (answer opening list (Store Prepend key flags block) ≡ NotStored) }
{}

/// A get after an append or a prepend returns the joined data with the old flags, if no command in
/// between has changed or removed the key.
pub fn joins_keep_the_flags()
    ensures append { (opening : Limits) (earlier between : List Command) (key : Key) (old : Item)
        (flags : ℕ) (block : Data) →
        map.get (after opening earlier) key ≡ Some old →
        answer opening earlier (Store Append key flags block) ≡ Stored →
        IsUntouched opening (earlier ++ Store Append key flags block ∷ []) key between →
        answer opening (earlier ++ Store Append key flags block ∷ between) (Get (key ∷ []) true)
        ≡ Values (record {
          key = key;
          flags = old.flags;
          block = old.block ++ block;
          unique = Some
              (changes opening earlier + 1);
        } ∷ []) }
    ensures prepend { (opening : Limits) (earlier between : List Command) (key : Key) (old : Item)
        (flags : ℕ) (block : Data) →
        map.get (after opening earlier) key ≡ Some old →
        answer opening earlier (Store Prepend key flags block) ≡ Stored →
        IsUntouched opening (earlier ++ Store Prepend key flags block ∷ []) key between →
        answer opening (earlier ++ Store Prepend key flags block ∷ between) (Get (key ∷ []) true)
        ≡ Values (record {
          key = key;
          flags = old.flags;
          block = block ++ old.block;
          unique = Some
              (changes opening earlier + 1);
        } ∷ []) }
{}

/// Data are numeric if they are 1 to 20 decimal digits of a number below 2^64. On a key that isn't
/// held incr and decr find nothing, and data that aren't numeric they refuse.
pub fn incr_and_decr_want_a_number()
    ensures numeric { (block : Data) (number : ℕ) →
        (numeric_value block ≡ Some number)
        ↔ ((IsNumeral 10 block × (length block ≤ 20))
        × ((digits_value 10 block ≡ number) × (number < 2 ^ 64))) }
    ensures not_numeric { (opening : Limits) (list : List Command) (key : Key) (old : Item)
        (by : ℕ) →
        map.get (after opening list) key ≡ Some old → numeric_value old.block ≡ None →
        (answer opening list (Incr key by) ≡ Refused NOT_A_NUMBER)
        × (answer opening list (Decr key by) ≡ Refused NOT_A_NUMBER) }
    ensures absent { (opening : Limits) (list : List Command) (key : Key) (by : ℕ) →
        IsNone (map.get (after opening list) key) →
        (answer opening list (Incr key by) ≡ NotFound)
        × (answer opening list (Decr key by) ≡ NotFound) }
{}

/// Incr adds modulo 2^64, unless the quotas refuse the sum's digits. Decr subtracts and stops at 0;
/// the quotas don't refuse it in a table that is within them.
pub fn incr_wraps_and_decr_stops()
    ensures sum { (opening : Limits) (list : List Command) (key : Key) (old : Item)
        (number by : ℕ) →
        map.get (after opening list) key ≡ Some old → numeric_value old.block ≡ Some number →
        (answer opening list (Incr key by) ≡ Number ((number + by) % (2 ^ 64)))
        ⊎ (answer opening list (Incr key by) ≡ Refused NO_ROOM) }
    ensures refused { (opening : Limits) (list : List Command) (key : Key) (old : Item)
        (number by : ℕ) →
        map.get (after opening list) key ≡ Some old → numeric_value old.block ≡ Some number →
        let sum : Item =
        record {
          flags = old.flags;
          block = decimal
              ((number + by) % (2 ^ 64));
          unique = changes opening list + 1;
        } in
        let next = map.insert (after opening list) key sum in
        (answer opening list (Incr key by) ≡ Refused NO_ROOM)
        ↔ (((limits_after opening list).bytes < use_of next)
        ⊎ ((limits_after opening list).items < count_of next)) }
    ensures less { (opening : Limits) (list : List Command) (key : Key) (old : Item)
        (number by : ℕ) →
        map.get (after opening list) key ≡ Some old → numeric_value old.block ≡ Some number →
        (answer opening list (Decr key by) ≡ Number (number - by))
        ⊎ (answer opening list (Decr key by) ≡ Refused NO_ROOM) }
    ensures difference { (opening : Limits) (list : List Command) (key : Key) (old : Item)
        (left by : ℕ) → IsWithinQuotas opening list →
        map.get (after opening list) key ≡ Some old → numeric_value old.block ≡ Some (left + by) →
        answer opening list (Decr key by) ≡ Number left }
    ensures zero { (opening : Limits) (list : List Command) (key : Key) (old : Item)
        (number by : ℕ) → IsWithinQuotas opening list →
        map.get (after opening list) key ≡ Some old → numeric_value old.block ≡ Some number →
        number ≤ by →
        answer opening list (Decr key by) ≡ Number 0 }
    ensures above { (opening : Limits) (list : List Command) (key : Key) (old : Item)
        (number by : ℕ) →
        map.get (after opening list) key ≡ Some old → numeric_value old.block ≡ Some number →
        let difference : Item =
        record {
          flags = old.flags;
          block = decimal (number - by);
          unique = changes opening list + 1;
        } in
        let next = map.insert (after opening list) key difference in
        (answer opening list (Decr key by) ≡ Refused NO_ROOM)
        ↔ (((limits_after opening list).bytes < use_of next)
        ⊎ ((limits_after opening list).items < count_of next)) }
{}

/// A get after an incr or a decr that answered a number returns its decimal digits with the old
/// flags, and the unique of that change, if no command in between has changed or removed the key.
pub fn numbers_keep_the_flags()
    ensures incr { (opening : Limits) (earlier between : List Command) (key : Key) (old : Item)
        (by number : ℕ) →
        map.get (after opening earlier) key ≡ Some old →
        answer opening earlier (Incr key by) ≡ Number number →
        IsUntouched opening (earlier ++ Incr key by ∷ []) key between →
        answer opening (earlier ++ Incr key by ∷ between) (Get (key ∷ []) true)
        ≡ Values (record {
          key = key;
          flags = old.flags;
          block = decimal number;
          unique = Some
              (changes opening earlier + 1);
        } ∷ []) }
    ensures decr { (opening : Limits) (earlier between : List Command) (key : Key) (old : Item)
        (by number : ℕ) →
        map.get (after opening earlier) key ≡ Some old →
        answer opening earlier (Decr key by) ≡ Number number →
        IsUntouched opening (earlier ++ Decr key by ∷ []) key between →
        answer opening (earlier ++ Decr key by ∷ between) (Get (key ∷ []) true)
        ≡ Values (record {
          key = key;
          flags = old.flags;
          block = decimal number;
          unique = Some
              (changes opening earlier + 1);
        } ∷ []) }
{}

/// A decr undoes an incr by the same number that didn't wrap, if no command in between has changed
/// or removed the key and the table is within its quotas: it gives back the number, and not how that
/// was spelled (`007` is `7` then).
pub fn decr_undoes_incr()
    ensures { (opening : Limits) (earlier between : List Command) (key : Key) (old : Item)
        (number by : ℕ) →
        map.get (after opening earlier) key ≡ Some old → numeric_value old.block ≡ Some number →
        number + by < 2 ^ 64 →
        answer opening earlier (Incr key by) ≡ Number (number + by) →
        IsUntouched opening (earlier ++ Incr key by ∷ []) key between →
        IsWithinQuotas opening (earlier ++ Incr key by ∷ between) →
        answer opening (earlier ++ Incr key by ∷ between) (Decr key by) ≡ Number number }
{}

/// A get after a delete of that key finds nothing, if no command in between has touched it. A
/// delete finds exactly the keys that are held, and is no change.
pub fn delete_takes_out()
    ensures gone { (opening : Limits) (earlier between : List Command) (key : Key)
        (uniques : Bool) →
        IsUntouched opening (earlier ++ Delete key ∷ []) key between →
        answer opening (earlier ++ Delete key ∷ between) (Get (key ∷ []) uniques) ≡ Values [] }
    ensures held { (opening : Limits) (list : List Command) (key : Key) →
        IsSome (map.get (after opening list) key) → answer opening list (Delete key) ≡ Deleted }
    ensures absent { (opening : Limits) (list : List Command) (key : Key) →
        IsNone (map.get (after opening list) key) → answer opening list (Delete key) ≡ NotFound }
    ensures uniques { (opening : Limits) (list : List Command) (key : Key) →
        changes opening (list ++ Delete key ∷ []) ≡ changes opening list }
{}

/// A flush is answered with OK and is no change. Directly behind it every get finds nothing, and
/// nothing counts against the quotas.
pub fn flush_takes_all_out()
    ensures ok { (opening : Limits) (list : List Command) → answer opening list Flush ≡ Ok }
    ensures nothing { (opening : Limits) (earlier : List Command) (keys : KeyList)
        (uniques : Bool) →
        answer opening (earlier ++ Flush ∷ []) (Get keys uniques) ≡ Values [] }
    ensures room { (opening : Limits) (earlier : List Command) →
        (use_of (after opening (earlier ++ Flush ∷ [])) ≡ 0)
        × (count_of (after opening (earlier ++ Flush ∷ [])) ≡ 0) }
    ensures uniques { (opening : Limits) (list : List Command) →
        changes opening (list ++ Flush ∷ []) ≡ changes opening list }
{}

/// The unique of an item is the number of changes up to and including the one that stored it.
pub fn unique_counts_changes()
    ensures { (opening : Limits) (list : List Command) (key : Key) (item : Item) →
        map.get (after opening list) key ≡ Some item → IsStoredBy opening list key item }
{}

/// No two items of a table share a unique.
pub fn no_unique_is_shared()
    ensures { (opening : Limits) (list : List Command) (key other : Key) (item twin : Item) →
        map.get (after opening list) key ≡ Some item →
        map.get (after opening list) other ≡ Some twin →
        item.unique ≡ twin.unique → key ≡ other }
{}
