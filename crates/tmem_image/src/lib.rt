//! Images: a state as a whole, in one of two copies in front of the log.
//!
//! `specs/Image.antt` says which copy a content chooses: the open one of the greater generation. `choose` finds it, and
//! `load` reads an image: the last byte of its header is that of the version of the format. `write_spare` writes one of version 2
//! to the other copy, of its pages those that may differ there: a crash (a power cut or a kill) at any moment leaves that
//! copy closed or stale, as it was, or open over the whole new image.
#![tactic(auto)]

mod choosing;
mod page_sets;
mod reading;
mod room;
mod spare;
mod spelling;
mod unique;

pub use choosing::{choose, load};
pub use page_sets::{ALL_PAGES, pages_changed};
pub use reading::{HEADER_BODY_BYTES, ImageState, VERSION_BYTE_AT};
pub use room::ImageRoom;
pub use spare::write_spare;
pub use unique::{one_choice, one_image};
