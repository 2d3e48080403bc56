//! Room for replies.

ghost use Rattle.std.specs.Prelude.{◌≡◌, ℕ, ◌≤◌, length};
ghost use Rattle.client_lines.specs.declared.reply_texts.replies.Reply.{Reply as reply_type};
ghost use Rattle.client_lines.specs.Replies.{reply_text};
ghost use Rattle.client_lines.specs.Rooms.{IsBehindEntry, room_for};

/// The bytes that the reply to a line whose entry was begun has at most,
/// where it prints so many runs.
pub fn reply_room(runs: u32) -> usize
    ensures { result ≡ room_for runs }
{
    160 + 32 * runs as usize
}

/// That room is enough for each reply that such a line may get.
pub fn replies_have_room()
    ensures { (runs : ℕ) (reply : reply_type)
        → IsBehindEntry runs reply → length (reply_text reply) ≤ room_for runs }
{}
