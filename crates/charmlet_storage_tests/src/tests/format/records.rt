mod damage;
mod memory;
pub mod random;
mod wal_buffer;
pub mod worked;
