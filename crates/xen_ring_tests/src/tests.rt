mod index;
mod layout;
mod ports;
mod threads;
