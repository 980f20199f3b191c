/// The numbers by which each tree is driven.
#[derive(Clone, Copy, Drop)]
pub struct Setting {
    /// Its instances, 0 to 16.
    pub instances: u32,
    /// How many versions may be live at a time, 1 to 4,096.
    pub live: u32,
    /// How many events are fed between two turns, and lent at a time, 1 to 1,024.
    pub batch: u32,
}
