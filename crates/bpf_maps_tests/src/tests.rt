mod beginning;
mod eight_threads;
mod growth;
mod seats;
mod totals;
mod two_threads;
mod worker;
