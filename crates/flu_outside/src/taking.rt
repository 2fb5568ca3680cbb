//! Taking more bytes than one call gives.

ghost use Rattle.std.specs.Prelude.{◌≡◌, ◌≢◌, ◌<◌, ◌^◌, ◌++◌, List, ℕ, length, IfOk, OnOk, OnErr, IsErrOf, Err};
ghost use Rattle.flu_outside.specs.Outside.{WhereTold, Rose, SameLeft, SameCounts};
ghost use Rattle.flu_outside.specs.Taking.{TakesFrom, KeepsBytes, IsReadOut, CountsOf, TookWhole, TookAtMost};

use crate::files::{Files, TakeFault};
use std::alloc::Global;

/// How many bytes are requested at once.
const CHUNK: usize = 16_384;

/// Takes some bytes of a name, appends them to `bytes` and says how many: none if the name has none left.
///
/// `Failed` is a failed take. If memory runs out, bytes that were taken are lost.
#[inline(never)]
pub fn take_behind<F: Files>(
    files: &mut F,
    name: &str,
    bytes: &mut Vec<u8>,
) -> Result<usize, TakeFault>
    ensures kept { OnOk result (WhereTold (F.left files.old) (F.left files.new) (KeepsBytes name.now bytes.old.items bytes.new.items)) }
    ensures behind { IfOk result (λ n. (more : List ℕ) × (length more ≡ n) × (bytes.new.items ≡ bytes.old.items ++ more)) }
    ensures end { IfOk result (λ n. n ≡ 0 → IsReadOut name.now (F.left files.new)) }
    ensures refused { OnErr result (bytes.new.items ≡ bytes.old.items) }
    ensures none { IsErrOf result TakeFault.Failed → WhereTold (F.left files.old) (F.left files.new) SameLeft }
    ensures taken { WhereTold (F.left files.old) (F.left files.new) (TakesFrom name.now) }
    ensures counts { CountsOf (F.left files.old) name.now (F.faults files.old) (F.faults files.new) }
    ensures quiet { result ≢ Err TakeFault.Failed → SameCounts (F.faults files.old) (F.faults files.new) }
    ensures failed { IsErrOf result TakeFault.Failed → Rose (F.faults files.old name.now) (F.faults files.new name.now) }
    ensures puts { SameCounts (F.put_faults files.old) (F.put_faults files.new) }
{
    let mut chunk = [0u8; CHUNK];
    let count = files.take(name, &mut chunk)?;
    if bytes.extend_from_slice(&chunk[..count]).is_err() {
        return Err(TakeFault::NoMemory);
    }
    Ok(count)
}

/// All bytes that a name has left; or, if these are more than `most`, a prefix of them with more than `most` bytes.
pub fn read_whole<F: Files>(
    alloc: Global,
    files: &mut F,
    name: &str,
    most: usize,
) -> Result<Vec<u8>, TakeFault>
    requires { most < 2 ^ 63 }
    ensures whole { IfOk result (λ bytes. WhereTold (F.left files.old) (F.left files.new) (TookWhole name.now most bytes.items)) }
    ensures taken { WhereTold (F.left files.old) (F.left files.new) (TakesFrom name.now) }
    ensures counts { CountsOf (F.left files.old) name.now (F.faults files.old) (F.faults files.new) }
    ensures quiet { result ≢ Err TakeFault.Failed → SameCounts (F.faults files.old) (F.faults files.new) }
    ensures puts { SameCounts (F.put_faults files.old) (F.put_faults files.new) }

    // A failed take is reported only if it was needed: no more than `most` bytes came before it.
    ensures failed { IsErrOf result TakeFault.Failed → Rose (F.faults files.old name.now) (F.faults files.new name.now) }
    ensures needed { IsErrOf result TakeFault.Failed → WhereTold (F.left files.old) (F.left files.new) (TookAtMost name.now most) }
{
    let mut bytes: Vec<u8> = Vec::new(alloc);
    while bytes.len() <= most {
        let n = take_behind(files, name, &mut bytes)?;
        if n == 0 {
            return Ok(bytes);
        }
    }
    Ok(bytes)
}
