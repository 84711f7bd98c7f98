// The day book, and the law that every run of calls on a board keeps against it, over any counter.
#![tactic(auto)]

ghost use Rattle.std.specs.Prelude.{Bool};
ghost use Rattle.daybook.specs.Book.{Call};
ghost use Rattle.daybook.specs.Boards.{State};
ghost use Rattle.daybook.specs.Promises.{Guarantee};
ghost use Rattle.daybook.specs.Runs.{History, Run, Step, Lawful, book_of};

use window::Counter;

// After any calls a board holds against the day book of those calls; and each call more is lawful.
pub fn law_stands<C: Counter>()
    ensures runs { (σ : State C) (h : History) → Run C.Counter.model σ h → Guarantee C.Counter.model σ (book_of h) }
    ensures steps { (before after : State C) (call : Call) (accepted : Bool) → Step C.Counter.model before call accepted after → Lawful C.Counter.model before call accepted after }
{}
