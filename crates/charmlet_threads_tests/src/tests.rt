mod replay;
mod workers;
