//! New files, in folders of the tests' own: an empty database of one small page, whole or not there at all.
mod cases;
mod folder;
mod met;
mod page;
mod seen;
mod stand_in;
mod steps;
mod stopped;
