/// Why a value was not taken in. It is handed back.
#[derive(Drop)]
pub enum PutFault<V> {
    /// As many values are live as may be.
    Full { live: u32, bound: u32, value: V },
    /// Want of memory.
    Memory(V),
}
