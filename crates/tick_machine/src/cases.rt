// What the definitions give: worked cases, a small morning, where wrong rules go astray, histories that attain each bound of the law, and the
// limits of making, adding and calls. The first four are computed in proofs/Computed.
ghost use Rattle.std.specs.Prelude.{◌≡◌, [], ◌∷◌, replicate, Ok, Err};
ghost use Rattle.tick_machine.specs.declared.refusal.Refusal.TheVariants.{LinkNumber, Largest, Capacity, FirstWeight, Weight, TooManySessions, TooMuchWeight, UnknownSession, Empty, TooLong, PastTheEnd, OtherLink, NotOut};
ghost use Rattle.tick_machine.specs.declared.call.Call.TheVariants.{Arrive, MoveTo, File, Return};
ghost use Rattle.tick_machine.specs.declared.call.Answer.TheVariants.{Moved, Refused};
ghost use Rattle.tick_machine.specs.Machine.{opened};
ghost use Rattle.tick_machine.specs.Life.{made, adding, answer};
ghost use Rattle.tick_machine.specs.Cases.{first_link, EveryCaseHolds, ASmallMorningStands};
ghost use Rattle.tick_machine.specs.WrongRules.{WrongRulesDiffer};
ghost use Rattle.tick_machine.specs.Sharp.{BoundsAreAttained};

// The definitions give every worked case.
pub fn worked_cases_stand()
    ensures { EveryCaseHolds }
{}

// A link's life from making to totals, call by call.
pub fn a_small_morning_stands()
    ensures { ASmallMorningStands }
{}

// Stamps from n alone, V from the line and choosing by the first slot each give another answer than ours.
pub fn wrong_rules_differ()
    ensures { WrongRulesDiffer }
{}

// No bound of the law can be made smaller.
pub fn bounds_are_attained()
    ensures { BoundsAreAttained }
{}

// Making takes numbers up to its limits, and refuses for the first that lies outside them.
pub fn limits_of_making_stand()
    ensures highest { made 65535 65535 1024 4096 ≡ Ok (record { link = 65535; largest = 65535; capacity = 1024; weights = 4096 ∷ [] }) }
    ensures high { (made 65536 65536 1025 4097 ≡ Err LinkNumber) × ((made 65535 65536 1025 4097 ≡ Err Largest) × ((made 65535 65535 1025 4097 ≡ Err Capacity) × (made 65535 65535 1024 4097 ≡ Err FirstWeight))) }
    ensures zero { (made 0 0 0 0 ≡ Err Largest) × ((made 0 1 0 0 ≡ Err Capacity) × (made 0 1 1 0 ≡ Err FirstWeight)) }
{}

// A link takes 64 sessions and a round 4096 slots, and no more.
pub fn limits_of_adding_stand()
    ensures { (adding (record { link = 7; largest = 10; capacity = 8; weights = 4000 ∷ [] }) 0 ≡ Err Weight) × ((adding (record { link = 7; largest = 10; capacity = 8; weights = 4000 ∷ [] }) 96 ≡ Ok 1) × ((adding (record { link = 7; largest = 10; capacity = 8; weights = 4000 ∷ [] }) 97 ≡ Err TooMuchWeight) × ((adding (record { link = 7; largest = 10; capacity = 8; weights = replicate 63 2 }) 3970 ≡ Ok 63) × (adding (record { link = 7; largest = 10; capacity = 8; weights = replicate 64 2 }) 4097 ≡ Err TooManySessions)))) }
{}

// Calls of the first link, just opened, are refused for the first limit that they pass.
pub fn limits_of_calls_stand()
    ensures arrivals { (answer first_link (opened first_link) (Arrive 2 0 1) ≡ Refused UnknownSession) × ((answer first_link (opened first_link) (Arrive 1 0 1) ≡ Refused Empty) × (answer first_link (opened first_link) (Arrive 1 11 1) ≡ Refused TooLong)) }
    ensures moves { (answer first_link (opened first_link) (MoveTo 0) ≡ Moved 0 0) × (answer first_link (opened first_link) (MoveTo 17592186044417) ≡ Refused PastTheEnd) }
    ensures settlements { (answer first_link (opened first_link) (File 8 0) ≡ Refused OtherLink) × (answer first_link (opened first_link) (Return 7 0) ≡ Refused NotOut) }
{}
