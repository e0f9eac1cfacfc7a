mod failures;
mod faults;
mod pages;
mod runs;
mod sketches;
