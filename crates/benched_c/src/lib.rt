// The measured calls for C: what `benched` answers.
#![tactic(auto)]

ghost use Rattle.std.specs.Prelude.{◌≡◌};
ghost use Rattle.paper.specs.Fields.{fields_answer};
ghost use Rattle.benched.specs.Stand.{bench_table, bench_stand, bench_moving, bench_admission};

// The slots to run.
#[unsafe(no_mangle)]
pub extern "C" fn bench_fields(bytes: &[u8]) -> u32
    ensures { result ≡ (fields_answer bytes.now).slots }
{
    benched::bench_fields(bytes)
}

// F.
#[unsafe(no_mangle)]
pub extern "C" fn bench_table(bytes: &[u8], k: &mut [u16], d: &mut [u16]) -> u32
    ensures { record { told = result; k = k.new; d = d.new } ≡ bench_table bytes.now k.old d.old }
{
    benched::bench_table(bytes, k, d)
}

// The tally I of the state.
#[unsafe(no_mangle)]
pub extern "C" fn bench_stand(
    bytes: &[u8],
    jobs: u32,
    work: u16,
    slots: u32,
    k: &mut [u16],
    d: &mut [u16],
    y: &mut [u16],
) -> u16
    ensures { record { told = result; k = k.new; d = d.new; y = y.new } ≡ bench_stand bytes.now jobs work slots k.old d.old y.old }
{
    benched::bench_stand(bytes, jobs, work, slots, k, d, y)
}

// The places of the state's moving vectors.
#[unsafe(no_mangle)]
pub extern "C" fn bench_moving(
    bytes: &[u8],
    jobs: u32,
    work: u16,
    slots: u32,
    k: &mut [u16],
    d: &mut [u16],
    y: &mut [u16],
) -> u32
    ensures { record { told = result; k = k.new; d = d.new; y = y.new } ≡ bench_moving bytes.now jobs work slots k.old d.old y.old }
{
    benched::bench_moving(bytes, jobs, work, slots, k, d, y)
}

// The promise of one job more.
#[unsafe(no_mangle)]
pub extern "C" fn bench_admission(
    bytes: &[u8],
    jobs: u32,
    work: u16,
    slots: u32,
    more: u16,
    k: &mut [u16],
    d: &mut [u16],
    y: &mut [u16],
) -> u64
    ensures { record { told = result; k = k.new; d = d.new; y = y.new } ≡ bench_admission bytes.now jobs work slots more k.old d.old y.old }
{
    benched::bench_admission(bytes, jobs, work, slots, more, k, d, y)
}
