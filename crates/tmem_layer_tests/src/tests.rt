//! Tests of what lies on a device, as tables of acts; and by calls, bytes of records, limits, names and the lines of refusals, and the
//! spine, also by threads.
mod acts;
mod batches;
mod counting;
mod disks;
mod effects;
mod files;
mod flushing;
mod images;
mod journals;
mod limits;
mod otherwise;
mod pages;
mod refusals;
mod rows;
mod spine;
mod states;
mod version_1;
mod words;
