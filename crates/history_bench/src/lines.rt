use std::alloc::{AllocError, Global};

/// Lines of every kind, with every kind of message and reply, as long runs have them.
const LINES: &[&str] = &[
    "open 3",
    "warm 12",
    "hop nav 7 https://www.shop.example/account/orders?page=2",
    "order 7 12 https://shop.example https://www.shop.example https://www.shop.example/account/orders?page=2",
    "commit 12 7 https://www.shop.example 68747470733a2f2f7777772e73686f702e6578616d706c652f6163636f756e742f6f7264657273 => ok",
    "said 12 40 0 40 frame sandboxed url 68747470733a2f2f6164732e6578616d706c652f62616e6e6572 => ok",
    "said 12 40 1 40 frame plain doc 17 => ok",
    "said 12 40 2 40 navigate 41 https://www.shop.example 68747470733a2f2f7061792e6578616d706c653a383434332f636172643f69643d31 => ok",
    "order 8 13 =https://pay.example:8443 opaque:41:=https://pay.example:8443 https://pay.example:8443/card?id=1",
    "said 12 40 3 40 fetch cors https://www.shop.example 68747470733a2f2f6170692e6578616d706c652f76312f7072696365733f63757272656e63793d455552 => ok",
    "hop req 19 https://api.example/v2/prices?currency=EUR",
    "head 19 A1",
    "piece 19 0 7b22707269636573223a5b7b226974656d223a2268617473222c22757364223a31397d2c7b226974656d223a22676c6f766573227d5d7d",
    "end 19 whole",
    "said 12 40 4 40 fetch no-cors opaque:41:https://ads.example 68747470733a2f2f7369746573 => ok",
    "head 20 B3",
    "end 20 blocked B7",
    "end 21 failed N7",
    "said 12 40 5 40 post 41 https://pay.example:8443 https://www.shop.example 7b226361727473223a337d => ok",
    "said 13 41 0 41 ask 73746f7265 https://pay.example:8443 676574206361727473 => answer 33",
    "local 13 41 1 took https://www.shop.example 7b226361727473223a337d",
    "local 13 41 2 waited",
    "local 13 41 3 skipped",
    "said 13 41 4 41 page 68747470733a2f2f6e6577732e6578616d706c65 => deny G2",
    "said 13 41 5 40 remove 42 => kill K3",
    "said 12 40 6 40 commit 9 https://www.shop.example 61626f75743a626c616e6b => drop M1",
    "navend 9 N5",
    "crash 12",
    "exit 13",
];

/// A text of so many lines, these again and again.
pub fn text_of_lines(alloc: Global, count: usize) -> Result<Vec<u8>, AllocError> {
    let mut text = Vec::new(alloc);
    for line in LINES.iter().cycle().take(count) {
        text.extend_from_slice(line.as_bytes())?;
        text.push(b'\n')?;
    }
    Ok(text)
}
