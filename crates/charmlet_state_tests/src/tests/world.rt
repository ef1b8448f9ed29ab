mod index;
mod pending;
mod seq_nos;
mod worlds;
