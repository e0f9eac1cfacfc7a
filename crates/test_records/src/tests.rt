mod escaped;
mod known;
mod last_ones;
mod recorded_again;
mod refused;
mod tellers;
