mod answers;
mod counters;
mod long;
mod meeting;
mod random;
mod refusals;
mod wanting;
