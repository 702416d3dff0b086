use tl_msg::Channel;

/// The position of a beat in its burst.
///
/// `head` is the head of the beat. `index` is the number of beats of the message before it, so it
/// is 0 for the first beat. `last` is whether it is the message's last beat. A message without data
/// has one beat, with index 0, and that beat is the last (TileLink: burst rules).
#[derive(Drop)]
pub struct Place<K: Channel> {
    pub head: K::Head,
    pub index: u32,
    pub last: bool,
}
