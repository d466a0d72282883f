// What a slot clock's state is: the round server, told by few numbers.
ghost use Rattle.slot_clock.specs.Theorems.{StateTellsTheRound, AddingIsAccepting, RunningIsTicking};

pub fn clocks_are_round_servers()
    ensures told { StateTellsTheRound }
    ensures adds { AddingIsAccepting }
    ensures runs { RunningIsTicking }
{}
