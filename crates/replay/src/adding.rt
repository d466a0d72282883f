// One adding after the other on a draft.
ghost use Rattle.std.specs.Prelude.{◌≡◌, ◌+◌, ◌≤◌, length, vec_len, vec_capacity};
ghost use Rattle.tick_machine.specs.Machine.{Config};
ghost use Rattle.link.specs.Drafting.{Drafts};
ghost use Rattle.replay.specs.Hand.{AddedAll};

use link::draft::Draft;
use tick_machine::call::Answer;
use waiting_line::line::WaitingLine;

// Every adding, in order: their answers come after those that are there. (Here, and where calls are answered, the room for them is asked of the vector
// itself: it differs with the number of answers to come, so that no type can say it.)
pub fn add_all<W: WaitingLine>(draft: &mut Draft<W>, addings: &[u64], answers: &mut Vec<Answer>)
    requires { vec_len answers.old + length addings.now ≤ vec_capacity answers.old }
    ensures added { (c : Config) → Drafts W.WaitingLine c draft.old → AddedAll W.WaitingLine c addings.now answers.old.items draft.new answers.new.items }
    ensures many { vec_len answers.new ≡ vec_len answers.old + length addings.now }
    ensures room { vec_capacity answers.new ≡ vec_capacity answers.old }
{
    for weight in addings {
        answers.push_reserved(
            draft
                .add(*weight)
                .map_or_else(Answer::Refused, Answer::Added),
        );
    }
}
