// What holds of every run: of every program, under every wait order and with every kind of mailbox.
// Each function here has a theorem for its contract; `specs/` says what its words mean.
#![tactic(auto)]

ghost use Rattle.model.specs.Accounts.{AccountLaw};
ghost use Rattle.model.specs.Example.{HoistRuns, DeepThreads};
ghost use Rattle.model.specs.History.{OpeningLaw};
ghost use Rattle.model.specs.Promises.{RunPromises, OrderDoesNotMatter, Completes, ClearedMore};
ghost use Rattle.model.specs.RuleExamples.{Examples};
ghost use Rattle.model.specs.Threads.{ThreadLaws, PlanPromises, PlanOrderDoesNotMatter, PlanAccounts};

// The promises over every history of every program of threads: a cleared program never halts, and a run is
// halted exactly by a breach; until all threads are home or the run is halted, some thread can move; all are
// home exactly if the program is cleared and as many moves were granted as it counts; credits balance on
// every channel; no two threads hold one lock; a thread's place is the number of its granted moves; the
// position is the one that the program and the grants determine.
pub fn run_promises<Level, Message, Mailbox>()
    ensures { RunPromises Level Message Mailbox }
{}

// Two histories that granted each thread equally many moves are at the same position, whichever kind of
// mailbox each used and whichever wait order each was judged by.
pub fn order_does_not_matter<Level, Message, Mailbox, Other>()
    ensures { OrderDoesNotMatter Level Message Mailbox Other }
{}

// An opening has no fault exactly if no message waits under any number 0 to 31 and every channel has room
// for the sends of the whole program; and its fault is 41 exactly if some message waits.
pub fn opening_law<Level, Message, Mailbox>()
    ensures { OpeningLaw Level Message Mailbox }
{}

// How far an account can go.
pub fn account_law<Level, Message, Mailbox>()
    ensures { AccountLaw Level Message Mailbox }
{}

// A cleared program can be brought home from every point of a history.
pub fn completes<Level, Message, Mailbox>()
    ensures { Completes Level Message Mailbox }
{}

// What one wait order clears, an order with more levels below one another clears.
pub fn cleared_more<Level, Message>()
    ensures { ClearedMore Level Message }
{}

// The threads that the tasks of a plan bring about: they make a program of which a run can be made, with
// their counts, and they are cleared exactly if the tasks are.
pub fn thread_laws<Level, Message>()
    ensures { ThreadLaws Level Message }
{}

// The promises over every history of every plan by task, where cleared means the walk of each task.
pub fn plan_promises<Level, Message, Mailbox>()
    ensures { PlanPromises Level Message Mailbox }
{}

// Two histories of one plan that granted each thread equally many moves are at the same position.
pub fn plan_order_does_not_matter<Level, Message, Mailbox, Other>()
    ensures { PlanOrderDoesNotMatter Level Message Mailbox Other }
{}

// No account of a plan leaves -51,300 to 51,300.
pub fn plan_accounts<Level, Message, Mailbox>()
    ensures { PlanAccounts Level Message Mailbox }
{}

// A plan with a history that ends with every thread home.
pub fn hoist_runs()
    ensures { HoistRuns }
{}

// A plan with ten threads, written out.
pub fn deep_threads()
    ensures { DeepThreads }
{}

// Each fault number met once, with its exact answer.
pub fn rule_examples()
    ensures { Examples }
{}
