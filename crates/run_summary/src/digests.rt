//! The digests of a run's output and of its visits.
ghost use Rattle.std.specs.Prelude.{◌≡◌, ◌≤◌, All, map};
ghost use Rattle.coz_types.specs.declared.record.Visit.{Visit};
ghost use Rattle.sha2.specs.Sha256.{sha256};
ghost use Rattle.machines.specs.KeptVisits.{net_of};
ghost use Rattle.run_summary.specs.Kept.{visit_bytes, visits_bytes};

use coz_types::{Digest, Visit};
use sha2::{Digest as Hasher, Sha256};

/// The digest of some bytes.
pub fn digest_of_bytes(bytes: &[u8]) -> Digest
    ensures { result.bytes ≡ sha256 bytes.now }
{
    Digest {
        bytes: Sha256::digest(bytes),
    }
}

/// A visit as it is hashed: the point, the hart and the net time, low byte first.
fn bytes_of_visit(visit: Visit) -> [u8; 12]
    requires { visit.delay ≤ visit.time }
    ensures { result ≡ visit_bytes (net_of visit) }
{
    let [p0, p1] = visit.point.0.to_le_bytes();
    let [h0, h1] = visit.hart.0.to_le_bytes();
    let [t0, t1, t2, t3, t4, t5, t6, t7] = (visit.time - visit.delay).to_le_bytes();
    [p0, p1, h0, h1, t0, t1, t2, t3, t4, t5, t6, t7]
}

/// The digest of the net visits, which are hashed one by one.
pub fn digest_of_visits(visits: &[Visit]) -> Digest
    requires { All (λ (visit : Visit). visit.delay ≤ visit.time) visits.now }
    ensures { result.bytes ≡ sha256 (visits_bytes (map net_of visits.now)) }
{
    let mut hasher = Sha256::new();
    for visit in visits {
        hasher.update(bytes_of_visit(*visit));
    }
    Digest {
        bytes: hasher.finalize(),
    }
}
