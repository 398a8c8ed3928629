//! Worked cases of jobs and services, by clocks and with desks of the tests' own.
mod ahead;
mod clocks;
mod desks;
mod drawing;
mod follows;
mod live;
mod service;
mod sweeps;
mod tasks;
mod trial;
