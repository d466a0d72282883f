// The theorems. Each function carries one in its contract; none of them computes anything.
ghost use Rattle.std.specs.Prelude.{List};
ghost use Rattle.tick_machine.specs.declared.call.Call.{Call};
ghost use Rattle.tick_machine.specs.Slots.{EachPositionHasOneOwner, EachSessionOwnsItsWeight};
ghost use Rattle.tick_machine.specs.Machine.{Config};
ghost use Rattle.tick_machine.specs.Law.{Law, Drafted, InEveryHistory, Lawful};
ghost use Rattle.tick_machine.specs.Fit.{DraftsKeepTheLimits};
ghost use Rattle.tick_machine.specs.Books.{TheStoryTellsTheCalls, SameWork, OwedByNext, FiguresTold, FiguresAddUp, TotalsAddUp, WellKept, StaysSmall, OfEveryMachine};

// Each position of a round has one owner, a session of the link, and each session owns as many positions as its weight.
pub fn ownership_stands()
    ensures each_position_has_one_owner { EachPositionHasOneOwner }
    ensures each_session_owns_its_weight { EachSessionOwnsItsWeight }
{}

// Every drafted configuration keeps the limits of a link.
pub fn limits_stand()
    ensures { DraftsKeepTheLimits }
{}

// The law holds at every moment of every history: (i) no packet leaves, or is still unsent, Lmax ticks or more after its last byte was served;
// (ii) each session's bytes served minus bytes sent stay below Lmax; (iii) no packet leaves, or is still unsent, after its latest tick, and that
// tick is bounded by the bytes its session was owed.
pub fn law_stands()
    ensures { InEveryHistory Law }
{}

// The machine that the law speaks of is the machine that the calls lead to.
pub fn story_stands()
    ensures { TheStoryTellsTheCalls }
{}

// The round server owes as many bytes as are unsent.
pub fn work_stands()
    ensures { OfEveryMachine SameWork }
{}

// The owed slots are exactly the slots from V on that are below their owner's next.
pub fn owed_slots_stand()
    ensures { OfEveryMachine OwedByNext }
{}

// The figures of the sessions are what happened, and they add up.
pub fn figures_stand()
    ensures in_every_history { InEveryHistory FiguresTold }
    ensures of_every_machine { OfEveryMachine FiguresAddUp }
{}

// The totals add up to the number of accepted packets.
pub fn totals_stand()
    ensures { OfEveryMachine TotalsAddUp }
{}

// No packet number is held twice; waiting packets stand in rising order of their stamps; unsent packets are proper.
pub fn numbers_stand()
    ensures { OfEveryMachine WellKept }
{}

// All numbers stay small.
pub fn sizes_stand()
    ensures { OfEveryMachine StaysSmall }
{}

// What a reader of the rules asks of every history, in one place: the law, told of the machine that the calls lead to, with figures and totals
// that are what happened.
pub fn every_history_is_lawful()
    ensures lawful { (c : Config) → Drafted c → (calls : List Call) → Lawful c calls }
    ensures the_story_tells_the_calls { TheStoryTellsTheCalls }
    ensures in_every_history { InEveryHistory FiguresTold }
    ensures of_every_machine { OfEveryMachine TotalsAddUp }
{
    law_stands();
    story_stands();
    figures_stand();
    totals_stand();
}
