// Both slot clocks through the same steps, and side by side on drawn calls.

#![tactic(auto)]

#[cfg(test)]
mod step;
#[cfg(test)]
mod tables;

#[cfg(test)]
mod tests {
    use crate::step::{Step, compared, filled, follow, refused};
    use crate::tables;
    use jump_clock::jump::JumpClock;
    use slot_clock::clock::SlotClock;
    use slot_clock::refusal::ClockRefusal;
    use slot_clock::step::StepClock;
    use std::array;
    use std::process::Abort;
    use std::test::Fail;

    // Session i has the weight i + 1.
    fn sixty_four() -> [u64; 64] {
        array::from_fn(|i| i as u64 + 1)
    }

    fn both(rt: &impl Abort, weights: &[u64], steps: &[Step]) -> Result<(), Fail> {
        follow::<StepClock>(rt, weights, steps)?;
        follow::<JumpClock>(rt, weights, steps)
    }

    // Why making was refused, if it was.
    fn both_made(rt: &impl Abort, weights: &[u64], refusal: Option<ClockRefusal>) {
        assert_eq!(rt; refused::<StepClock>(weights), refusal);
        assert_eq!(rt; refused::<JumpClock>(weights), refusal);
    }

    #[test]
    fn numbers_of_refusals(rt: HostRuntime) {
        let numbers = [
            (ClockRefusal::Sessions, 81),
            (ClockRefusal::Weights, 82),
            (ClockRefusal::UnknownSession, 83),
            (ClockRefusal::Size, 84),
            (ClockRefusal::TooMuchOwed, 85),
            (ClockRefusal::TicksPastEnd, 86),
        ];
        for (refusal, number) in numbers {
            assert_eq!(rt; refusal.number(), number);
        }
    }

    #[test]
    fn too_few_or_many_sessions(rt: HostRuntime) {
        both_made(&rt, &[], Some(ClockRefusal::Sessions));
        both_made(&rt, &[1; 65], Some(ClockRefusal::Sessions));
        both_made(&rt, &[0; 65], Some(ClockRefusal::Sessions));
    }

    #[test]
    fn weights_out_of_bounds(rt: HostRuntime) {
        both_made(&rt, &[0], Some(ClockRefusal::Weights));
        both_made(&rt, &[5, 0, 7], Some(ClockRefusal::Weights));
        both_made(&rt, &[4097], Some(ClockRefusal::Weights));
        both_made(&rt, &[4096, 1], Some(ClockRefusal::Weights));
        both_made(&rt, &[64; 64], None);
    }

    #[test]
    fn as_much_as_may_be_owed(rt: HostRuntime) -> Result<(), Fail> {
        filled::<StepClock>(&rt)?;
        filled::<JumpClock>(&rt)
    }

    #[test]
    fn one_session(rt: HostRuntime) -> Result<(), Fail> {
        both(&rt, &[3], &tables::ONE_SESSION)
    }

    #[test]
    fn refusals_change_nothing(rt: HostRuntime) -> Result<(), Fail> {
        both(&rt, &[2, 1], &tables::REFUSALS_CHANGE_NOTHING)
    }

    #[test]
    fn heaviest_weight(rt: HostRuntime) -> Result<(), Fail> {
        both(&rt, &[4096], &tables::HEAVIEST_WEIGHT)
    }

    #[test]
    fn one_beside_many(rt: HostRuntime) -> Result<(), Fail> {
        both(&rt, &[1, 4095], &tables::ONE_BESIDE_MANY)
    }

    #[test]
    fn back_after_silence(rt: HostRuntime) -> Result<(), Fail> {
        both(&rt, &[2, 3, 1], &tables::BACK_AFTER_SILENCE)
    }

    #[test]
    fn before_at_and_after_dry(rt: HostRuntime) -> Result<(), Fail> {
        both(&rt, &[2, 1], &tables::BEFORE_AT_AND_AFTER_DRY)
    }

    #[test]
    fn dry_within_one_run(rt: HostRuntime) -> Result<(), Fail> {
        both(&rt, &[1, 2, 3], &tables::DRY_WITHIN_ONE_RUN)
    }

    #[test]
    fn sixty_four_sessions(rt: HostRuntime) -> Result<(), Fail> {
        both(&rt, &sixty_four(), &tables::SIXTY_FOUR_SESSIONS)
    }

    // A jump for each session that runs dry, and one more if the last slot served was not its session's last.
    #[test]
    fn as_many_jumps_as_run_dry(rt: HostRuntime) -> Result<(), Fail> {
        let mut clock = <JumpClock as SlotClock>::make(&[1, 2, 3])?;
        let _first = clock.add(0, 2)?;
        let _second = clock.add(1, 6)?;
        let _third = clock.add(2, 60000)?;
        assert_eq!(rt; clock.run_told(0)?, 0);
        assert_eq!(rt; clock.run_told(12)?, 2);
        assert_eq!(rt; clock.run_told(50000)?, 2);
        assert_eq!(rt; clock.run_told(1000000)?, 1);
        assert_eq!(rt; clock.run_told(1000000)?, 0);
        Ok(())
    }

    #[test]
    fn side_by_side_few(rt: HostRuntime) -> Result<(), Fail> {
        compared::<StepClock, JumpClock>(&rt, &[3, 1, 4, 1, 5], 1, 250)
    }

    #[test]
    fn side_by_side_two(rt: HostRuntime) -> Result<(), Fail> {
        compared::<StepClock, JumpClock>(&rt, &[1, 40], 2, 150)
    }

    #[test]
    fn side_by_side_many(rt: HostRuntime) -> Result<(), Fail> {
        compared::<StepClock, JumpClock>(&rt, &sixty_four(), 3, 150)
    }
}
