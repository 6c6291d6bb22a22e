//! The fingerprint of a set of labels, which distinguishes it from other sets.

ghost use Rattle.std.specs.Prelude.{◌≡◌, map};
ghost use Rattle.mon_notify.specs.Fingerprint.{fingerprint, hashed, label_hashed, octet_hashed};
ghost use Rattle.mon_notify.specs.Labels.{pair_of};

use crate::label::Label;

/// The hash of nothing.
const BASIS: u64 = 14_695_981_039_346_656_037;

/// What a hash is multiplied by for each octet.
const PRIME: u64 = 1_099_511_628_211;

/// Returns a hash after one more octet.
fn octet_hashed(hash: u64, octet: u8) -> u64
    ensures { result ≡ octet_hashed hash octet }
{
    (hash ^ u64::from(octet)).wrapping_mul(PRIME)
}

/// Returns a hash after more octets.
fn hashed(hash: u64, octets: &[u8]) -> u64
    ensures { result ≡ hashed hash octets.now }
{
    let mut hash = hash;
    for i in 0..octets.len() {
        hash = octet_hashed(hash, octets[i]);
    }
    hash
}

/// Returns a hash after a label: its name and its value, each with an octet of ones behind it.
fn label_hashed(hash: u64, label: &Label) -> u64
    ensures { result ≡ label_hashed hash (pair_of label.now) }
{
    let named = octet_hashed(hashed(hash, label.name.as_bytes()), 255);
    octet_hashed(hashed(named, label.value.as_bytes()), 255)
}

/// Returns the fingerprint of labels, which Prometheus gives labels in this order.
pub(crate) fn fingerprint(labels: &[Label]) -> u64
    ensures { result ≡ fingerprint (map pair_of labels.now) }
{
    let mut hash = BASIS;
    for i in 0..labels.len() {
        hash = label_hashed(hash, &labels[i]);
    }
    hash
}
