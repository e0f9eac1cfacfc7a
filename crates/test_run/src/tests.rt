mod gates;
mod late;
mod outcomes;
mod refused;
mod two_threads;
mod whole_runs;
