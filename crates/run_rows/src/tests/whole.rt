//! Pages as users have them: several subjects in one history.

use super::{Row, assert_runs_as_written};
use std::test::Fail;

pub const ROWS: &[Row] = &[
    // An advertisement, a picture and a script of a cache, a font, data of its own, and storage.
    (
        "a shop page",
        r#"{"suffixes":"com\nnet\norg\nio\ndev\nuk\nco.uk\norg.uk\nac.uk\ngov.uk\nde\nfr\nes\nit\njp\nco.jp\nac.jp\nau\ncom.au\nnz\nco.nz\nbr\ncom.br\nin\nco.in\nza\nco.za\nck\n*.ck\n!www.ck",
"start":["https://www.shop.co.uk/"],"resources":[
{"url":"https://www.shop.co.uk/","actions":[{"do":"frame","src":"https://ads.adnet.com/"},
{"do":"fetch","url":"https://cdn.pics.net/a.png","mode":"no-cors"},
{"do":"fetch","url":"https://cdn.pics.net/a.js","mode":"no-cors"},
{"do":"fetch","url":"https://fonts.type.org/f","mode":"cors"},
{"do":"fetch","url":"https://www.shop.co.uk/cart","mode":"cors"},
{"do":"wait"},
{"do":"ask","service":"store","request":"set cart 1"},{"do":"ask","service":"store","request":"get cart"}]},
{"url":"https://cdn.pics.net/a.png","headers":[["Content-Type","image/png"]],"body":"PNG"},
{"url":"https://cdn.pics.net/a.js","headers":[["Content-Type","text/javascript"]],"body":"go()","cuts":[2]},
{"url":"https://fonts.type.org/f","headers":[["Content-Type","font/woff2"],["Access-Control-Allow-Origin","*"]],"body":"F"},
{"url":"https://www.shop.co.uk/cart","headers":[["Content-Type","application/json"]],"body":"{\"n\":1}"}]}"#,
        "history 2
open 0
order 0 0 https://shop.co.uk https://www.shop.co.uk https://www.shop.co.uk/
commit 0 0 https://www.shop.co.uk 68747470733a2f2f7777772e73686f702e636f2e756b2f => ok
said 0 0 0 0 frame plain url 68747470733a2f2f6164732e61646e65742e636f6d2f => ok
order 1 1 https://adnet.com https://ads.adnet.com https://ads.adnet.com/
said 0 0 1 0 fetch no-cors https://www.shop.co.uk 68747470733a2f2f63646e2e706963732e6e65742f612e706e67 => ok
said 0 0 2 0 fetch no-cors https://www.shop.co.uk 68747470733a2f2f63646e2e706963732e6e65742f612e6a73 => ok
said 0 0 3 0 fetch cors https://www.shop.co.uk 68747470733a2f2f666f6e74732e747970652e6f72672f66 => ok
said 0 0 4 0 fetch cors https://www.shop.co.uk 68747470733a2f2f7777772e73686f702e636f2e756b2f63617274 => ok
commit 1 1 https://ads.adnet.com 68747470733a2f2f6164732e61646e65742e636f6d2f => ok
head 0 A4
head 1 A4
head 2 A2
head 3 A1
piece 0 0 504e47
piece 1 0 676f
piece 1 1 2829
piece 2 0 46
piece 3 0 7b226e223a317d
end 0 whole
end 1 whole
end 2 whole
end 3 whole
local 0 0 5 waited
said 0 0 6 0 ask 73746f7265 https://www.shop.co.uk 73657420636172742031 => answer 646f6e65
said 0 0 7 0 ask 73746f7265 https://www.shop.co.uk 6765742063617274 => answer 736f6d652031
",
    ),
    // The attacker's frame asks for the mail, claims its origin, and is killed; the mail goes on.
    (
        "a mail page and an attacker's page",
        r#"{"spare":true,"start":["https://evil.com/","https://mail.com/"],"resources":[
{"url":"https://evil.com/","actions":[{"do":"fetch","url":"https://mail.com/inbox","mode":"no-cors"},
{"do":"fetch","url":"https://mail.com/inbox","mode":"cors"},{"do":"frame","src":"https://mail.com/"},{"do":"wait"},
{"do":"post","frame":"child 0","target":"https://mail.com/","text":"hi"},
{"do":"raw","message":{"is":"ask","service":"store","origin":"https://mail.com/","request":"get token"}}]},
{"url":"https://mail.com/","actions":[{"do":"ask","service":"store","request":"set token t"},
{"do":"fetch","url":"https://mail.com/inbox","mode":"cors"},{"do":"recv"}]},
{"url":"https://mail.com/inbox","headers":[["Content-Type","application/json"]],"body":"{\"from\":1}"}]}"#,
        "history 2
open 0
open 1
warm 0
order 0 0 https://evil.com https://evil.com https://evil.com/
warm 1
order 1 1 https://mail.com https://mail.com https://mail.com/
warm 2
commit 0 0 https://evil.com 68747470733a2f2f6576696c2e636f6d2f => ok
said 0 0 0 0 fetch no-cors https://evil.com 68747470733a2f2f6d61696c2e636f6d2f696e626f78 => ok
said 0 0 1 0 fetch cors https://evil.com 68747470733a2f2f6d61696c2e636f6d2f696e626f78 => ok
said 0 0 2 0 frame plain url 68747470733a2f2f6d61696c2e636f6d2f => ok
order 2 1 https://mail.com https://mail.com https://mail.com/
commit 1 1 https://mail.com 68747470733a2f2f6d61696c2e636f6d2f => ok
said 1 1 0 1 ask 73746f7265 https://mail.com 73657420746f6b656e2074 => answer 646f6e65
said 1 1 1 1 fetch cors https://mail.com 68747470733a2f2f6d61696c2e636f6d2f696e626f78 => ok
commit 1 2 https://mail.com 68747470733a2f2f6d61696c2e636f6d2f => ok
said 1 2 0 2 ask 73746f7265 https://mail.com 73657420746f6b656e2074 => answer 646f6e65
said 1 2 1 2 fetch cors https://mail.com 68747470733a2f2f6d61696c2e636f6d2f696e626f78 => ok
head 2 A1
head 3 A1
piece 2 0 7b2266726f6d223a317d
piece 3 0 7b2266726f6d223a317d
end 0 blocked B6
end 1 blocked B1
local 0 0 3 waited
said 0 0 4 0 post 2 https://mail.com https://evil.com 6869 => ok
said 0 0 5 0 ask 73746f7265 https://mail.com 67657420746f6b656e => kill K7
end 2 whole
",
    ),
];

#[test]
fn whole_run_as_written(rt: HostRuntime) -> Result<(), Fail> {
    assert_runs_as_written(&rt, rt.alloc(), ROWS)
}
