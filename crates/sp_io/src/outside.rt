ghost use Rattle.std.specs.Prelude.{◌≡◌, ℕ, ◌<◌, ◌≤◌, List, [], Bool, true, Option, length, take, IfOk, OnOk, OnErr};
ghost use Rattle.sp_io.specs.Outside.{SourceState, SinkState, Gave, Grew, GrewWithin, IsUsedUp, Rose};

use std::marker::Send;

/// A call of the outside failed, and its count of faults rose in that call.
#[derive(Clone, Copy, Debug, Drop, PartialEq, Eq)]
pub struct Failed;

/// Bytes to be read, to their end.
pub trait Source: Send {
    /// What is left, where the source tells it; how often a call has failed; whether a call has found
    /// nothing left.
    ghost state: { Self → SourceState };

    /// Moves the first bytes of what is left to the front of `into`, which isn't empty, and answers
    /// how many: 0 exactly where nothing is left. After `Failed` nothing was taken.
    fn read(&mut self, into: &mut [u8]) -> Result<usize, Failed>
        requires { 0 < length into.old }

        ensures size { length into.new ≡ length into.old }
        ensures count { IfOk result (λ n. n ≤ length into.old) }
        ensures bytes { IfOk result
            (λ n. Gave (state self.old).left (take n into.new) (state self.new).left) }
        ensures nothing_left { IfOk result (λ n. n ≡ 0 → IsUsedUp (state self.old).left) }
        ensures untaken { OnErr result (Gave (state self.old).left [] (state self.new).left) }

        ensures ended { IfOk result (λ n. n ≡ 0 → (state self.new).ended ≡ true) }
        ensures goes_on { IfOk result
            (λ n. 0 < n → (state self.new).ended ≡ (state self.old).ended) }
        ensures failed_before_end { OnErr result ((state self.new).ended ≡ (state self.old).ended) }

        ensures no_fault { OnOk result ((state self.new).faults ≡ (state self.old).faults) }
        ensures fault { OnErr result (Rose (state self.old).faults (state self.new).faults) }
        ensures never_falls { (state self.old).faults ≤ (state self.new).faults };

    /// Where an ended source tells what is left, nothing is left.
    ghost used_up: { (source : Self) → (state source).ended ≡ true → IsUsedUp (state source).left };
}

/// A place for bytes.
pub trait Sink: Send {
    /// What it holds, where the sink tells it; how often a call has failed.
    ghost state: { Self → SinkState };

    /// Appends the piece. After `Failed` a prefix of the piece was appended.
    fn write_all(&mut self, piece: &[u8]) -> Result<(), Failed>
        ensures ok { OnOk result (Grew (state self.old).held piece.now (state self.new).held) }
        ensures err { OnErr result
            (GrewWithin (state self.old).held piece.now (state self.new).held) }

        ensures no_fault { OnOk result ((state self.new).faults ≡ (state self.old).faults) }
        ensures fault { OnErr result (Rose (state self.old).faults (state self.new).faults) }
        ensures never_falls { (state self.old).faults ≤ (state self.new).faults };
}
