//! Tests of `causal_curves`.
use crate::checks::check_equal;
use causal_curves::{curves, write_curves};
use coz_files::{MemorySink, PutAnswer};
use profile_reader::read_profile;
use std::alloc::{AllocError, Global};
use std::test::Fail;

/// Two points and five lines: no visits of the second point at a speedup, a time that changes by
/// less than a ten thousandth, no run at speedup 0, no net time there, and a line that costs time and
/// has twice the visits of the second point.
const PROFILE: &[u8] = b"coz-ticks\tversion=1\tbudget=1000\tpoints=2\n\
point\tindex=0\tname=p.s:1\n\
point\tindex=1\tname=p.s:2\n\
experiment\tselected=a.s:1\tspeedup=0\tend=exited:0\ttime=1000\tdelay=0\tretired=3\tstarts=1\n\
output\tlength=0\tsha256=e3b0c44298fc1c149afbf4c8996fb92427ae41e4649b934ca495991b7852b855\n\
throughput-point\tindex=0\tdelta=4\n\
throughput-point\tindex=1\tdelta=0\n\
visits\tsha256=e3b0c44298fc1c149afbf4c8996fb92427ae41e4649b934ca495991b7852b855\n\
experiment\tselected=a.s:1\tspeedup=25\tend=exited:0\ttime=900\tdelay=150\tretired=3\tstarts=1\n\
output\tlength=0\tsha256=e3b0c44298fc1c149afbf4c8996fb92427ae41e4649b934ca495991b7852b855\n\
throughput-point\tindex=0\tdelta=4\n\
throughput-point\tindex=1\tdelta=3\n\
visits\tsha256=e3b0c44298fc1c149afbf4c8996fb92427ae41e4649b934ca495991b7852b855\n\
experiment\tselected=a.s:1\tspeedup=50\tend=exited:0\ttime=1100\tdelay=0\tretired=3\tstarts=1\n\
output\tlength=0\tsha256=e3b0c44298fc1c149afbf4c8996fb92427ae41e4649b934ca495991b7852b855\n\
throughput-point\tindex=0\tdelta=4\n\
throughput-point\tindex=1\tdelta=0\n\
visits\tsha256=e3b0c44298fc1c149afbf4c8996fb92427ae41e4649b934ca495991b7852b855\n\
experiment\tselected=b.s:1\tspeedup=0\tend=exited:0\ttime=3000\tdelay=0\tretired=3\tstarts=1\n\
output\tlength=0\tsha256=e3b0c44298fc1c149afbf4c8996fb92427ae41e4649b934ca495991b7852b855\n\
throughput-point\tindex=0\tdelta=1\n\
throughput-point\tindex=1\tdelta=1\n\
visits\tsha256=e3b0c44298fc1c149afbf4c8996fb92427ae41e4649b934ca495991b7852b855\n\
experiment\tselected=b.s:1\tspeedup=25\tend=exited:0\ttime=3001\tdelay=0\tretired=3\tstarts=1\n\
output\tlength=0\tsha256=e3b0c44298fc1c149afbf4c8996fb92427ae41e4649b934ca495991b7852b855\n\
throughput-point\tindex=0\tdelta=1\n\
throughput-point\tindex=1\tdelta=1\n\
visits\tsha256=e3b0c44298fc1c149afbf4c8996fb92427ae41e4649b934ca495991b7852b855\n\
experiment\tselected=b.s:1\tspeedup=50\tend=exited:0\ttime=1900\tdelay=100\tretired=3\tstarts=1\n\
output\tlength=0\tsha256=e3b0c44298fc1c149afbf4c8996fb92427ae41e4649b934ca495991b7852b855\n\
throughput-point\tindex=0\tdelta=1\n\
throughput-point\tindex=1\tdelta=1\n\
visits\tsha256=e3b0c44298fc1c149afbf4c8996fb92427ae41e4649b934ca495991b7852b855\n\
experiment\tselected=c.s:1\tspeedup=50\tend=exited:0\ttime=700\tdelay=0\tretired=3\tstarts=1\n\
output\tlength=0\tsha256=e3b0c44298fc1c149afbf4c8996fb92427ae41e4649b934ca495991b7852b855\n\
throughput-point\tindex=0\tdelta=1\n\
throughput-point\tindex=1\tdelta=1\n\
visits\tsha256=e3b0c44298fc1c149afbf4c8996fb92427ae41e4649b934ca495991b7852b855\n\
experiment\tselected=d.s:1\tspeedup=0\tend=exited:0\ttime=100\tdelay=100\tretired=3\tstarts=1\n\
output\tlength=0\tsha256=e3b0c44298fc1c149afbf4c8996fb92427ae41e4649b934ca495991b7852b855\n\
throughput-point\tindex=0\tdelta=1\n\
throughput-point\tindex=1\tdelta=1\n\
visits\tsha256=e3b0c44298fc1c149afbf4c8996fb92427ae41e4649b934ca495991b7852b855\n\
experiment\tselected=d.s:1\tspeedup=50\tend=exited:0\ttime=90\tdelay=0\tretired=3\tstarts=1\n\
output\tlength=0\tsha256=e3b0c44298fc1c149afbf4c8996fb92427ae41e4649b934ca495991b7852b855\n\
throughput-point\tindex=0\tdelta=1\n\
throughput-point\tindex=1\tdelta=1\n\
visits\tsha256=e3b0c44298fc1c149afbf4c8996fb92427ae41e4649b934ca495991b7852b855\n\
experiment\tselected=e.s:1\tspeedup=0\tend=exited:0\ttime=1000\tdelay=0\tretired=3\tstarts=1\n\
output\tlength=0\tsha256=e3b0c44298fc1c149afbf4c8996fb92427ae41e4649b934ca495991b7852b855\n\
throughput-point\tindex=0\tdelta=1\n\
throughput-point\tindex=1\tdelta=1\n\
visits\tsha256=e3b0c44298fc1c149afbf4c8996fb92427ae41e4649b934ca495991b7852b855\n\
experiment\tselected=e.s:1\tspeedup=50\tend=exited:0\ttime=1100\tdelay=0\tretired=3\tstarts=1\n\
output\tlength=0\tsha256=e3b0c44298fc1c149afbf4c8996fb92427ae41e4649b934ca495991b7852b855\n\
throughput-point\tindex=0\tdelta=1\n\
throughput-point\tindex=1\tdelta=2\n\
visits\tsha256=e3b0c44298fc1c149afbf4c8996fb92427ae41e4649b934ca495991b7852b855\n";

/// The text of docs/FORMATS.md, Text of plot, by hand from the times, delays and counts of
/// `PROFILE`.
const CURVES: &[u8] = b"curve\tpoint=0\tselected=b.s:1\tgain=4000\n\
step\tspeedup=0\tvalue=0\tbar=\n\
step\tspeedup=25\tvalue=-4\tbar=\n\
step\tspeedup=50\tvalue=4000\tbar=################\n\
curve\tpoint=0\tselected=a.s:1\tgain=2500\n\
step\tspeedup=0\tvalue=0\tbar=\n\
step\tspeedup=25\tvalue=2500\tbar=##########\n\
step\tspeedup=50\tvalue=-1000\tbar=----\n\
curve\tpoint=0\tselected=e.s:1\tgain=-1000\n\
step\tspeedup=0\tvalue=0\tbar=\n\
step\tspeedup=50\tvalue=-1000\tbar=----\n\
curve\tpoint=0\tselected=c.s:1\tgain=absent\n\
step\tspeedup=50\tvalue=absent\tbar=\n\
curve\tpoint=0\tselected=d.s:1\tgain=absent\n\
step\tspeedup=0\tvalue=absent\tbar=\n\
step\tspeedup=50\tvalue=absent\tbar=\n\
curve\tpoint=1\tselected=e.s:1\tgain=4500\n\
step\tspeedup=0\tvalue=0\tbar=\n\
step\tspeedup=50\tvalue=4500\tbar=##################\n\
curve\tpoint=1\tselected=b.s:1\tgain=4000\n\
step\tspeedup=0\tvalue=0\tbar=\n\
step\tspeedup=25\tvalue=-4\tbar=\n\
step\tspeedup=50\tvalue=4000\tbar=################\n\
curve\tpoint=1\tselected=a.s:1\tgain=absent\n\
step\tspeedup=0\tvalue=absent\tbar=\n\
step\tspeedup=25\tvalue=absent\tbar=\n\
step\tspeedup=50\tvalue=absent\tbar=\n\
curve\tpoint=1\tselected=c.s:1\tgain=absent\n\
step\tspeedup=50\tvalue=absent\tbar=\n\
curve\tpoint=1\tselected=d.s:1\tgain=absent\n\
step\tspeedup=0\tvalue=absent\tbar=\n\
step\tspeedup=50\tvalue=absent\tbar=\n";

fn put_curves(alloc: Global, sink: &mut MemorySink) -> Result<PutAnswer, AllocError> {
    match read_profile(alloc, PROFILE) {
        Ok(profile) => {
            let curves = curves(alloc, &profile);
            drop(profile);
            Ok(write_curves(curves?.as_slice(), sink))
        }
        Err(_) => Ok(PutAnswer::Failed),
    }
}

#[test]
fn curves_are_put_by_rank(rt: HostRuntime) -> Result<(), Fail> {
    let mut sink = MemorySink::new(rt.alloc(), 4096, Vec::new(rt.alloc()))?;
    let answer = put_curves(rt.alloc(), &mut sink)?;
    check_equal(&rt, (answer, sink.held()), (PutAnswer::Done, CURVES));
    drop(sink);
    Ok(())
}
