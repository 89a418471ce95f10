//! Rows of calls by one thread, and hubs that many threads call.
mod parts;
mod rows;
mod threads;
