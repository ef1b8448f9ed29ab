mod counters;
mod forgetful;
mod found;
mod judged;
mod passing;
mod stepping;
