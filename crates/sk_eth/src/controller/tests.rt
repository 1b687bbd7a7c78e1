use super::*;
use std::test::Fail;

/// Of each length in bytes: the length that an active controller sends, or None where it refuses.
const LENGTHS: [(usize, Option<usize>); 7] = [
    (0, None),
    (13, None),
    (14, Some(60)),
    (59, Some(60)),
    (60, Some(60)),
    (1518, Some(1518)),
    (1519, None),
];

#[test]
fn frames_by_their_length(rt: HostRuntime) -> Result<(), Fail> {
    let ones = [1u8; 1519];
    let mut eth = EthController::new();
    eth.activate();
    for (len, expected) in LENGTHS {
        let frame = ones.get(..len).unwrap_or(&[]);
        match (eth.send(rt.alloc(), frame), expected) {
            (Ok(sent), Some(expected)) => {
                assert_eq!(rt; sent.as_slice().len(), expected, "{len} bytes");
                assert!(rt; sent.as_slice().starts_with(frame));
                let zeros = sent.as_slice().get(len..).unwrap_or(&[]);
                assert!(rt; zeros.iter().all(|byte| *byte == 0), "{len} bytes");
            }
            (Err(EthRefused::InvalidFrameFormat(told)), None) => assert_eq!(rt; told, len),
            (Err(reason), None) => panic!(rt; "{reason:?}"),
            (Err(reason), Some(_)) => return Err(Fail::from(reason)),
            (Ok(_), None) => panic!(rt; "{len} bytes"),
        }
    }
    Ok(())
}

#[test]
fn every_call_in_every_state(rt: HostRuntime) -> Result<(), Fail> {
    for active in [false, true] {
        let mut eth = EthController { active };
        assert_eq!(rt; eth.admits(), active);
        match (eth.send(rt.alloc(), &[1; 60]), active) {
            (Err(EthRefused::ControllerInactive), false) | (Ok(_), true) => {}
            (answer, _) => panic!(rt; "{answer:?}"),
        }
        // the state is judged before the length
        let short = eth.send(rt.alloc(), &[1; 13]);
        let is_inactive = matches!(short, Err(EthRefused::ControllerInactive));
        assert_eq!(rt; is_inactive, !active);
        eth.activate();
        assert!(rt; eth.admits());
        eth = EthController { active };
        eth.deactivate();
        assert!(rt; !eth.admits());
    }
    Ok(())
}
