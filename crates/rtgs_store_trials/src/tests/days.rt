//! Short days answer by answer, and a ring of many orders over a file and over memory.
mod automatic;
mod closings;
mod gridlocks;
mod orders;
mod ring;
