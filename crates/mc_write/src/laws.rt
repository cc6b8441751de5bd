//! What follows from the definitions of `specs/`: what a client reads of items and numbers, however
//! large these are. A law is the contract of a function with an empty body.
ghost use Rattle.std.specs.List.{join_with_byte};
ghost use Rattle.std.specs.Prelude.{◌≡◌, ℕ, List, [], ◌∷◌, ◌++◌, codes, decimal, length, Some, None};
ghost use Rattle.mc_model.specs.declared.reply.Reply.TheVariants.{Number, Values};
ghost use Rattle.mc_model.specs.declared.reply.Value.{Value};
ghost use Rattle.mc_write.specs.Text.{text};

/// A client reads each number of an item whole: the line of an item has its key, its flags, the
/// number of bytes of its data and, where it is shown, its unique, each after one space and without
/// a digit left out. So the unique that a client sends back in a cas is the item's, however many
/// changes its table has seen. Items are shown one after another, and a number that an incr or a
/// decr answers is whole too.
pub fn numbers_are_shown_whole()
    ensures get { (value : Value) (others : List Value) → value.unique ≡ None →
        text (Values (value ∷ others))
        ≡ join_with_byte 32
        (codes "VALUE" ∷ value.key ∷ decimal value.flags ∷ decimal (length value.block) ∷ [])
        ++ codes "\r\n" ++ value.block ++ codes "\r\n" ++ text (Values others) }
    ensures gets { (value : Value) (others : List Value) (unique : ℕ) →
        value.unique ≡ Some unique →
        text (Values (value ∷ others))
        ≡ join_with_byte 32
        (codes "VALUE" ∷ value.key ∷ decimal value.flags ∷ decimal (length value.block)
        ∷ decimal unique ∷ [])
        ++ codes "\r\n" ++ value.block ++ codes "\r\n" ++ text (Values others) }
    ensures number { (number : ℕ) → text (Number number) ≡ decimal number ++ codes "\r\n" }
{}
