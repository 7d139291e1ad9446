//! The packets that were sent last.
ghost use Rattle.std.specs.Prelude.{◌≡◌, ◌≤◌, ◌⊎◌, ◌++◌, length, drop};

// The oldest packet goes, the new one comes behind the youngest.
pub(crate) fn advance<T: Copy>(history: &mut [T], packet: &[T])
    requires { (length history.old ≡ 0) ⊎ (length packet.now ≤ length history.old) }
    ensures { history.new ≡ drop (length packet.now) (history.old ++ packet.now) }
{
    if history.is_empty() {
        return;
    }
    let size = packet.len();
    let kept = history.len() - size;
    history.copy_within(size.., 0);
    history[kept..].copy_from_slice(packet);
}
