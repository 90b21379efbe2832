// Every theorem that docs/CLAIMS.md cites, by its type. A crate is proved without a theorem that nothing cites; here each function ensures
// a record of theorems, and is proved only with all of them. For one more: a field in specs/, a line in the function's proof, and its
// name in docs/CLAIMS.md (tests/claims).
#![tactic(auto)]

ghost use Rattle.claims.specs.Runs.{Runs};
ghost use Rattle.claims.specs.OrdersLost.{OrdersLost};
ghost use Rattle.claims.specs.SlotTime.{SlotTime};
ghost use Rattle.claims.specs.Receipts.{Receipts};
ghost use Rattle.claims.specs.Bits.{Bits};
ghost use Rattle.claims.specs.CheckSequence.{CheckSequence};
ghost use Rattle.claims.specs.Pdus.{Pdus};
ghost use Rattle.claims.specs.LinkAsLists.{LinkAsLists};
ghost use Rattle.claims.specs.Computed.{Computed};
ghost use Rattle.claims.specs.Calls.{Calls};
ghost use Rattle.claims.specs.Records.{Records};
ghost use Rattle.claims.specs.StateAndStore.{StateAndStore};
ghost use Rattle.claims.specs.Text.{Text};
ghost use Rattle.claims.specs.Examples.{Examples};

/// Runs of the entry point.
pub fn runs()
    ensures { Runs }
{}

/// What Lost tells.
pub fn orders_lost()
    ensures { OrdersLost }
{}

/// Slot time.
pub fn slot_time()
    ensures { SlotTime }
{}

/// Receipts.
pub fn receipts()
    ensures { Receipts }
{}

/// Bits.
pub fn bits()
    ensures { Bits }
{}

/// The check sequence.
pub fn check_sequence()
    ensures { CheckSequence }
{}

/// PDUs.
pub fn pdus()
    ensures { Pdus }
{}

/// The link as lists, and demand 3 of it.
pub fn link_as_lists()
    ensures { LinkAsLists }
{}

/// Runs that the checker computes.
pub fn computed()
    ensures { Computed }
{}

/// Calls.
pub fn calls()
    ensures { Calls }
{}

/// Records.
pub fn records()
    ensures { Records }
{}

/// State and store.
pub fn state_and_store()
    ensures { StateAndStore }
{}

/// Text.
pub fn text()
    ensures { Text }
{}

/// Document 01's examples.
pub fn examples()
    ensures { Examples }
{}
