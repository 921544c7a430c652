use records::{Alert, AlertLevel, AlertMessage, judge_alert, receive_alert};

/// The numbers of the alerts, in the order of the standard.
const LISTED: [u8; 28] = [
    0, 10, 20, 21, 22, 30, 40, 42, 43, 44, 45, 46, 47, 48, 49, 50, 51, 70, 71, 80, 90, 100, 200,
    201, 202, 203, 204, 205,
];

/// The stage that each leads to as a warning: 12 closed, 0 as it was.
const WARNED: [u8; 28] = [
    12, 12, 12, 12, 12, 12, 12, 12, 12, 12, 12, 12, 12, 12, 12, 12, 12, 12, 12, 12, 0, 0, 12, 12,
    12, 12, 12, 12,
];

/// What the tables say of a level and a number: a stage, or alert 47.
fn expected(level: u8, number: u8) -> u8 {
    for i in 0..28usize {
        if LISTED[i] == number {
            return match level {
                1 => WARNED[i],
                2 => 13,
                _ => 47,
            };
        }
    }
    47
}

/// Every level and number, against the tables.
#[test]
fn every_pair(rt: HostRuntime) {
    for level in 0..=255u8 {
        for number in 0..=255u8 {
            let told = match judge_alert(level, number) {
                Ok(effect) => effect.number(),
                Err(fault) => {
                    assert_eq!(rt; fault.layer.number(), 2);
                    fault.alert.number()
                }
            };
            assert_eq!(rt; told, expected(level, number));
        }
    }
}

/// Every number is an alert's exactly if it is in the table, and then that alert's own.
#[test]
fn every_number(rt: HostRuntime) {
    let mut count = 0usize;
    for number in 0..=255u8 {
        let in_table = expected(2, number) == 13;
        match Alert::from_number(number) {
            Some(alert) => {
                assert!(rt; in_table);
                assert_eq!(rt; alert.number(), number);
                count = count.saturating_add(1);
            }
            None => assert!(rt; !in_table),
        }
    }
    assert_eq!(rt; count, 28);
}

/// Both levels with every listed number read and written again.
#[test]
fn read_and_written(rt: HostRuntime) {
    for i in 0..28usize {
        for level in 1..=2u8 {
            let octets = [level, LISTED[i]];
            match AlertMessage::read(&octets) {
                Ok(message) => assert_eq!(rt; message.to_octets(), octets),
                Err(_) => assert!(rt; false),
            }
        }
    }
    assert!(rt; AlertLevel::from_number(0).is_none());
    assert!(rt; AlertLevel::from_number(3).is_none());
}

/// The two that an end writes itself.
#[test]
fn own_alerts(rt: HostRuntime) {
    assert_eq!(rt; AlertMessage::close_notify().to_octets(), [1, 0]);
    assert_eq!(rt;
        AlertMessage::fatal(Alert::BadRecordMac).to_octets(),
        [2, 20]
    );
}

/// The alert raised for a content, and 0 where none is.
fn raised(content: &[u8]) -> u8 {
    match receive_alert(content) {
        Ok(_) => 0,
        Err(fault) => fault.alert.number(),
    }
}

/// Contents of other lengths than two, unknown numbers, and a sound one.
#[test]
fn contents(rt: HostRuntime) {
    assert_eq!(rt; raised(&[]), 50);
    assert_eq!(rt; raised(&[1]), 50);
    assert_eq!(rt; raised(&[1, 90, 0]), 50);
    assert_eq!(rt; raised(&[1, 52]), 47);
    assert_eq!(rt; raised(&[3, 0]), 47);
    assert_eq!(rt; raised(&[1, 90]), 0);
    assert!(rt; AlertMessage::read(&[1, 90, 0]).is_err());
    assert!(rt; AlertMessage::read(&[0, 90]).is_err());
}
