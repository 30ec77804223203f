//! A push of the most storages that a virtual storage may have.

use crate::operations::{answer, play_each};
use px_core::Core;
use std::test::Fail;
use tests_tables::play;

const CREATION: &str = "\
    create v x.git 0 -> created 0 lease 1 assigned v0 v1 v2 v3 v4 v5 v6 v7 v8 v9 v10 v11 v12 v13 \
        v14 v15 v16 v17 v18 v19 v20 v21 v22 v23 v24 v25 v26 v27 v28 v29 v30 v31 v32 v33 v34 v35 \
        v36 v37 v38 v39 v40 v41 v42 v43 v44 v45 v46 v47 v48 v49 v50 v51 v52 v53 v54 v55 v56 v57 \
        v58 v59 v60 v61 v62 v63";

const MEMBERS: &str = "\
    begin 0 -> begun 1 lease 2 gen 0 members v0 v1 v2 v3 v4 v5 v6 v7 v8 v9 v10 v11 v12 v13 v14 \
        v15 v16 v17 v18 v19 v20 v21 v22 v23 v24 v25 v26 v27 v28 v29 v30 v31 v32 v33 v34 v35 v36 \
        v37 v38 v39 v40 v41 v42 v43 v44 v45 v46 v47 v48 v49 v50 v51 v52 v53 v54 v55 v56 v57 v58 \
        v59 v60 v61 v62 v63 targets -
    push 1 -> 1 of 0 2 0 by 0,1,2,3,4,5,6,7,8,9,10,11,12,13,14,15,16,17,18,19,20,21,22,23,24,25,\
        26,27,28,29,30,31,32,33,34,35,36,37,38,39,40,41,42,43,44,45,46,47,48,49,50,51,52,53,54,55,\
        56,57,58,59,60,61,62,63 false false";

// The primary weighs 63, and the threshold is 95: 32 secondaries decide with it. The last one votes
// late.
const DECISION: &str = "\
    cast 1 v32 prepared 1 -> committed 1111111111111111111111111111111111111111 95/95 in 1
    cast 1 v63 prepared 1 -> committed 1111111111111111111111111111111111111111 96/95 in 1
    collect 1 v0 1 -> committed 1111111111111111111111111111111111111111 96/95 in 1
    collect 1 v62 1 -> open in 1
    member 1 v63 -> 63
    finish 1 -> refused StillOpen
    booked 0 -> newest 1 v0=doubt:2:0:1 v1=doubt:2:0:1 v2=doubt:2:0:1 v3=doubt:2:0:1 \
        v4=doubt:2:0:1 v5=doubt:2:0:1 v6=doubt:2:0:1 v7=doubt:2:0:1 v8=doubt:2:0:1 \
        v9=doubt:2:0:1 v10=doubt:2:0:1 v11=doubt:2:0:1 v12=doubt:2:0:1 v13=doubt:2:0:1 \
        v14=doubt:2:0:1 v15=doubt:2:0:1 v16=doubt:2:0:1 v17=doubt:2:0:1 v18=doubt:2:0:1 \
        v19=doubt:2:0:1 v20=doubt:2:0:1 v21=doubt:2:0:1 v22=doubt:2:0:1 v23=doubt:2:0:1 \
        v24=doubt:2:0:1 v25=doubt:2:0:1 v26=doubt:2:0:1 v27=doubt:2:0:1 v28=doubt:2:0:1 \
        v29=doubt:2:0:1 v30=doubt:2:0:1 v31=doubt:2:0:1 v32=doubt:2:0:1 v33=at:0 v34=at:0 \
        v35=at:0 v36=at:0 v37=at:0 v38=at:0 v39=at:0 v40=at:0 v41=at:0 v42=at:0 v43=at:0 \
        v44=at:0 v45=at:0 v46=at:0 v47=at:0 v48=at:0 v49=at:0 v50=at:0 v51=at:0 v52=at:0 \
        v53=at:0 v54=at:0 v55=at:0 v56=at:0 v57=at:0 v58=at:0 v59=at:0 v60=at:0 v61=at:0 \
        v62=at:0 v63=doubt:2:0:1";

const END: &str = "\
    cast 1 v32 committed 1 -> committed 1111111111111111111111111111111111111111 95/95 in 2
    cast 1 v63 committed 1 -> committed 1111111111111111111111111111111111111111 96/95 in 2
    finish 1 -> committed 1
    holder 0 -> holder -
    booked 0 -> newest 1 v0=at:1 v1=at:1 v2=at:1 v3=at:1 v4=at:1 v5=at:1 v6=at:1 v7=at:1 v8=at:1 \
        v9=at:1 v10=at:1 v11=at:1 v12=at:1 v13=at:1 v14=at:1 v15=at:1 v16=at:1 v17=at:1 v18=at:1 \
        v19=at:1 v20=at:1 v21=at:1 v22=at:1 v23=at:1 v24=at:1 v25=at:1 v26=at:1 v27=at:1 \
        v28=at:1 v29=at:1 v30=at:1 v31=at:1 v32=at:1 v33=at:0 v34=at:0 v35=at:0 v36=at:0 \
        v37=at:0 v38=at:0 v39=at:0 v40=at:0 v41=at:0 v42=at:0 v43=at:0 v44=at:0 v45=at:0 \
        v46=at:0 v47=at:0 v48=at:0 v49=at:0 v50=at:0 v51=at:0 v52=at:0 v53=at:0 v54=at:0 \
        v55=at:0 v56=at:0 v57=at:0 v58=at:0 v59=at:0 v60=at:0 v61=at:0 v62=at:0 v63=at:1";

#[test]
fn a_push_is_done_by_the_most_storages(rt: HostRuntime) -> Result<(), Fail> {
    let alloc = rt.alloc();
    let mut core = Core::new(alloc);
    play_each(alloc, &mut core, "admit v v# -> storage #", 0, 64)?;
    play_each(alloc, &mut core, "health # up -> ok", 0, 64)?;
    play(alloc, &mut core, answer, CREATION)?;
    play_each(alloc, &mut core, "enrol 0 # 1 -> ok", 0, 64)?;
    play(alloc, &mut core, answer, MEMBERS)?;
    play_each(alloc, &mut core, "cast 1 v# prepared 1 -> open in 1", 0, 32)?;
    play(alloc, &mut core, answer, DECISION)?;
    play_each(
        alloc,
        &mut core,
        "cast 1 v# committed 1 -> open in 2",
        0,
        32,
    )?;
    play(alloc, &mut core, answer, END)
}
