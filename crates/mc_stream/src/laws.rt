//! What follows from the definitions. A law is the contract of a function with an empty body.
ghost use Rattle.std.specs.IoError.{error_kind};
ghost use Rattle.std.specs.Prelude.{◌≡◌, ◌≢◌, ◌⊎◌, Result, Ok, Err};
ghost use Rattle.std.specs.declared.io.Error.{Error};
ghost use Rattle.std.specs.declared.io.ErrorKind.TheVariants.{Interrupted, WouldBlock};
ghost use Rattle.mc_stream.specs.Standard.{pull_of, push_of};
ghost use Rattle.mc_stream.specs.declared.stream.Pull.TheVariants as pull;
ghost use Rattle.mc_stream.specs.declared.stream.Push.TheVariants as push;

/// What a reader or a writer couldn't do now is tried again if the call was interrupted or would
/// block, and in no other case: every other error ends the stream as a failure, and so does a write
/// that takes none of some bytes.
pub fn only_what_may_still_come_is_waited_for()
    ensures waits { (error : Error) →
        (error_kind error ≡ Interrupted) ⊎ (error_kind error ≡ WouldBlock) →
        (pull_of (Err error) ≡ pull.Empty)
        × ((flushed : Result (Unit {0}) Error) → push_of (Err error) flushed ≡ push.Full) }
    ensures fails { (error : Error) → error_kind error ≢ Interrupted →
        error_kind error ≢ WouldBlock →
        (pull_of (Err error) ≡ pull.Failed)
        × ((flushed : Result (Unit {0}) Error) → push_of (Err error) flushed ≡ push.Failed) }
    ensures nothing { (flushed : Result (Unit {0}) Error) → push_of (Ok 0) flushed ≡ push.Failed }
{}
