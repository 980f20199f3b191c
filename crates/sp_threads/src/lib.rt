//! What no contract says of a hub among threads: that those who wait there are woken, also where many tickets pass; and single calls
//! of a hub, a store and labels. Tests alone.
#![tactic(auto)]

#[cfg(test)]
mod hubs;
#[cfg(test)]
mod passing;
#[cfg(test)]
mod single;
#[cfg(test)]
mod waking;
