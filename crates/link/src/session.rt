// The record of a session: its bytes accepted and sent. What the round server has served of them is told by the slot clock.
ghost use Rattle.std.specs.Prelude.{◌≡◌, ℕ, ◌+◌, ◌^◌, ◌<◌, map, length, vec_len, slice_index};
ghost use Rattle.tick_machine.specs.Machine.{raise};

#[derive(Clone, Copy, PartialEq, Eq, Debug, Default)]
pub struct Session {
    pub accepted: u64,
    pub sent: u64,
}

// So many bytes of the session were accepted: its record is lent, and all others keep their values.
// (Beside `note_sent`, which lends the other field: with the field as a closure, the promise would say what the closure did, and no more the sum.)
pub fn note_accepted(sessions: &mut Vec<Session>, session: u64, bytes: u64)
    ensures accepted { session < vec_len sessions.old → slice_index (map (λ s. s.accepted) sessions.old.items) session + bytes < 2 ^ 64 → map (λ s. s.accepted) sessions.new.items ≡ raise session bytes (map (λ s. s.accepted) sessions.old.items) }
    ensures sent { map (λ s. s.sent) sessions.new.items ≡ map (λ s. s.sent) sessions.old.items }
    ensures many { vec_len sessions.new ≡ vec_len sessions.old }
{
    if let Some(record) = sessions.get_mut(session as usize) {
        record.accepted = record.accepted.saturating_add(bytes);
    }
}

// So many bytes of the session were sent.
pub fn note_sent(sessions: &mut Vec<Session>, session: u64, bytes: u64)
    ensures sent { session < vec_len sessions.old → slice_index (map (λ s. s.sent) sessions.old.items) session + bytes < 2 ^ 64 → map (λ s. s.sent) sessions.new.items ≡ raise session bytes (map (λ s. s.sent) sessions.old.items) }
    ensures accepted { map (λ s. s.accepted) sessions.new.items ≡ map (λ s. s.accepted) sessions.old.items }
    ensures many { vec_len sessions.new ≡ vec_len sessions.old }
{
    if let Some(record) = sessions.get_mut(session as usize) {
        record.sent = record.sent.saturating_add(bytes);
    }
}
