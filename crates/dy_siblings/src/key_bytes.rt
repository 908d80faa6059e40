use crate::fronts::Front;
use crate::keys::MAX_KEY_BYTES;
use std::sync::Arc;

// The bytes of a key, in sixteen bytes.
#[derive(Debug, Drop)]
pub enum KeyBytes {
    // Those of a short one lie in place.
    Short {
        front: Front,
    },
    // How many a longer one has, and all of them, filled up with zeros, which its copies share.
    Long {
        count: u8,
        whole: Arc<[u8; MAX_KEY_BYTES]>,
    },
}
