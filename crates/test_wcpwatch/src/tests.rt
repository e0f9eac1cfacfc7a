mod faults;
mod reads;
mod refused;
mod rows;
mod runs;
mod writes;
