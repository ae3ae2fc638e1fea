//! The texts of what is told.

pub(crate) const NO_OUTPUT: &str =
    "standard output took no more; look whether it is closed, or its reader has ended, and for room";

pub(crate) const NO_LINES: &str =
    "standard output took no more; look whether it is closed, or its reader has ended, and for room; what was not told may be done: see what the store has before any is repeated";

pub(crate) const NO_ANSWERS: &str =
    "standard output took no more; look whether it is closed, or its reader has ended, and for room; requests without an answer may be done: see what the store has before any is repeated";

pub(crate) const UNSURE: &str =
    "a write or sync failed; repeat nothing yet: open the store again, after an error of the disk (dmesg) once the machine was started anew; if writes fail again, look for room, also below the device (df, lvs), or end each program that uses the store, copy it to a new file on another disk, and sync that; only if it was copied to its end, use that copy alone from then on";

pub(crate) const NOT_ANSWERED: &str =
    "if it had told opened, each request without an answer, or answered by this fault, may be done or not: open the store again, and see what it has before any is repeated";

pub(crate) const NO_INPUT: &str =
    "standard input could not be read; give a file or a pipe (it may be closed, or a folder)";

pub(crate) const PLAYED: &str =
    "what the script made durable before and behind these entries is done; look what the store has, and play what is missing alone, not the whole script again";

pub(crate) const NO_CLOCK: &str = "the system did not tell the time; try again";

pub(crate) const NOT_REGISTERED: &str =
    "keep a copy of this file before all else; then check its path and that of its shape, since another service's store looks the same; if both are the ones, and the store should have transactions that tmem show PATH does not tell, something changed the file: move it away, and put an earlier backup in its place (what the backup lacks is lost); only if the store was made before its shape had this invariant, serve it with its own shape in which this one lacks always, let a transaction check it, and try again";

pub(crate) const EMPTY_FILE: &str = "the file is empty";

pub(crate) const EMPTY_INPUT: &str = "standard input is empty";

pub(crate) const NO_SHAPE: &str = "no store was touched; correct that place, and try again";

pub(crate) const NO_SHAPE_OF_STORE: &str =
    "no store was touched; correct that place, and try again; if what stood there is lost, put back the shape that used the store last, as it was then (another may allow what that one forbids)";

pub(crate) const OTHER_TEXT: &str =
    "a shape stands beside its store, as STORE.json, and what has that path is not this one; check the path; only if there never was a store, move that shape away, or name another path";

pub(crate) const TEXT_UNREAD: &str =
    "what has the path of its shape, STORE.json, cannot be read; look at its rights, or move it away";

pub(crate) const A_STORE: &str =
    "it is a store already; serve that one; name another path only for another store (a new one knows none of the transactions of this one)";

pub(crate) const CUT_STORE: &str =
    "it begins as a store and ends too soon; check the path; if it is the one, move it away, and put a backup in its place (what the backup lacks is lost); only if nothing that was in it is needed, move it away and make the store anew, or name another path (what was paid looks unpaid in a new store)";

pub(crate) const TOO_SHORT: &str =
    "it has fewer bytes than the store takes; if a store was there, move this away, and put a backup in its place (what the backup lacks is lost); else make it longer if all of them are 0, or name another";

pub(crate) const NO_STORE: &str = "what is there is no store";

pub(crate) const BEFORE_A_COPY: &str =
    "if it is to be a block device, look whether it is attached, and under which name (lsblk, losetup -l); if the file has another name now, name that; if a program still has it open (lsof +L1), let that write no more, and copy the file out of /proc/PID/fd before it ends; only if there was a store, and it is nowhere else, put a backup there (what the backup lacks is lost)";

pub(crate) const NONE_YET: &str = "if there never was one, make one by tmem init STORE FILE";

pub(crate) const ON_A_DEVICE: &str =
    "it is a block device, and names of devices change: look first whether it is the one, begins and ends at the right byte, and is not mounted (lsblk -b, losetup -l); to move it away means to copy its bytes to a file, and to put a backup in its place to write that onto it (dd)";

pub(crate) const SHORT_DEVICE: &str =
    "it is a block device, and too short for the store; look first whether it is the one, and begins at the right byte (lsblk, losetup -l); if a store was on it, make it as long as it was, and try again, before anything is written onto it; if that cannot be, copy its bytes to a file, and put an earlier backup, of the whole store, on another device that is long enough";

pub(crate) const CUT_BEHIND_ITS_LOG: &str =
    "check the path; its log ends in front of the byte where it is cut off, so no transaction is missing if it lost its end alone (nothing in front of that was left out or filled with zeros, as by dd conv=noerror, ddrescue, fsck or truncate, and it is no copy of a store that was in use); only then do this in place of what is said next: end each program that uses it, copy it to a new file, its shape beside that if it has one (COPY.json), make the copy as long as the store";

pub(crate) const USE_THAT_COPY: &str =
    "see by tmem show what it has, and use that copy alone from then on";

pub(crate) const UNSEEN: &str = "what is there could not be looked at";

pub(crate) const EMPTY_STORE: &str =
    "the file is empty, and so no store; check the path; only if there never was one, remove it, and make one by tmem init";

pub(crate) const STORE_FOR_FILE: &str =
    "it is a store, and no shape; STORE is named first, and FILE, its shape, second; no store was touched";

pub(crate) const STORE_FOR_SHAPE: &str =
    "it is a store, and no shape; name the shape of the store to be served by --shape; no store was touched";

pub(crate) const STORE_FOR_SCRIPT: &str =
    "it is a store, and no script; name the script first, and the store by --disk; no store was touched";

pub(crate) const A_DEVICE: &str = "it is a block device; add --in-place to make a store on it";

pub(crate) const PLACED_OR_NOT: &str =
    "the device failed while the store was made on it, so it is made or not; look into the system's log (dmesg) and for room below the device (df, lvs), start the machine anew after an error of the disk, and give the same words again: they make it, or say that the device is not blank, and then tmem show tells whether it is made; if it is not, fill those bytes with zeros and begin again";

pub(crate) const NOT_BLANK: &str =
    "it has bytes other than 0 where the store would be; if a store was there (which lsblk and mount do not show), copy these bytes to another file first, and then put a backup in their place (what the backup lacks is lost); else look what it is (lsblk, mount), and name another, or fill it with zeros only if nothing on it is needed";
