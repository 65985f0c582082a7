// The promises of document 01's table M at 0, from lent vectors that are longer than its three places, and from those places alone.
// A row has the places in front of what is lent for K, D or Y. A need's line has the need, then the promise for it from what is lent and
// from what stands in front of it.
#![tactic(auto)]

use moving::Made;
use paper::Slot;
use promise::Vectors;
use std::io;
use telling::{MARK, row};

fn main(rt: HostRuntime) -> io::Result<()> {
    let k = [0, 3, 8, MARK, MARK];
    let d = [1, 1, 2, MARK];
    let y = [1, 1, 2, MARK, MARK, MARK];
    let lent = Vectors {
        made: Made {
            window: 10,
            places: 3,
            here: 0,
            idle: 4,
            left: 4,
        },
        k: &k,
        d: &d,
        y: &y,
    };
    let front = lent.in_front();
    print!(rt; "K")?;
    row(&rt, front.k, k.len())?;
    print!(rt; "D")?;
    row(&rt, front.d, d.len())?;
    print!(rt; "Y")?;
    row(&rt, front.y, y.len())?;
    for need in [1, 3, 4, 5, 8, 9, 30000] {
        println!(rt;
            "need {} {} {}",
            need,
            lent.promise_for(Slot(0), need).0,
            front.promise_for(Slot(0), need).0
        )?;
    }
    Ok(())
}
