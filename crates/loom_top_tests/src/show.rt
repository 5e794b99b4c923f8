//! What `show` writes, row by row.

use crate::alone::answer_of;
use crate::rows::Row;
use std::test::Fail;

const SHOW: &[&str] = &["show", "p.lm"];

/// A program with every form, and its canonical text.
const ALL: &[u8] =
    b"sema s;fn f(a,b){\nreturn a<b||!a;\n}mutex m;shared c[4];fn g(){\n// a comment\nreturn;\n}shared y=-7;shared x;sema t=2;fn main(){\nlet i=f(1,2);\nlet j=spawn f(i,x);\nlet k=0;\nwhile(k<3&&i!=4){\nif(k==2){\nskip;\n}else{\nc[k]=c[i]*2;\n}\nk=k+1;\n}\nif(i){\nx=(y-(1-2))/3%4;\n}else{}\ni=f(k,-i);\nj=spawn g();\ng();\nf(i>=1,j<=k);\nlock m;\nunlock m;\ndown s;\nup t;\njoin j;\nprint((i>0));\n}";

const ALL_TEXT: &[u8] =
    b"shared c[4];\nshared y = -7;\nshared x = 0;\nmutex m;\nsema s = 0;\nsema t = 2;\nfn f(a, b) {\n  return (a < b) || !a;\n}\nfn g() {\n  return;\n}\nfn main() {\n  let i = f(1, 2);\n  let j = spawn f(i, x);\n  let k = 0;\n  while ((k < 3) && (i != 4)) {\n    if (k == 2) {\n      skip;\n    } else {\n      c[k] = c[i] * 2;\n    }\n    k = k + 1;\n  }\n  if (i) {\n    x = ((y - (1 - 2)) / 3) % 4;\n  }\n  i = f(k, -i);\n  j = spawn g();\n  g();\n  f(i >= 1, j <= k);\n  lock m;\n  unlock m;\n  down s;\n  up t;\n  join j;\n  print i > 0;\n}\n";

const ROWS: [Row; 11] = [
    Row {
        name: "a product",
        program: b"fn main(){print (2+3)*4;}",
        words: SHOW,
        status: 0,
        text: b"fn main() {\n  print (2 + 3) * 4;\n}\n",
    },
    Row {
        name: "no statement",
        program: b"fn main(){}",
        words: SHOW,
        status: 0,
        text: b"fn main() {\n}\n",
    },
    Row {
        name: "every form",
        program: ALL,
        words: SHOW,
        status: 0,
        text: ALL_TEXT,
    },
    Row {
        name: "a program that has no end",
        program: b"fn main(){while(1){}}",
        words: SHOW,
        status: 0,
        text: b"fn main() {\n  while (1) {\n  }\n}\n",
    },
    Row {
        name: "an unknown name",
        program: b"fn main() {\n  skip;\n  x = 1;\n}\n",
        words: SHOW,
        status: 2,
        text: b"program: line 3: 3 UnknownName\n",
    },
    Row {
        name: "no program",
        program: b"fn main() {\n  print 1\n}\n",
        words: SHOW,
        status: 2,
        text: b"program: line 3: 1 Syntax\n",
    },
    Row {
        name: "another file",
        program: b"fn main(){}",
        words: &["show", "q.lm"],
        status: 4,
        text: b"read fault: q.lm\n",
    },
    Row {
        name: "no file",
        program: b"fn main(){}",
        words: &["show"],
        status: 1,
        text: b"usage\n",
    },
    Row {
        name: "an empty name",
        program: b"fn main(){}",
        words: &["show", ""],
        status: 1,
        text: b"usage\n",
    },
    Row {
        name: "a name that begins with `-`",
        program: b"fn main(){}",
        words: &["show", "-p.lm"],
        status: 1,
        text: b"usage\n",
    },
    Row {
        name: "a limit",
        program: b"fn main(){}",
        words: &["show", "p.lm", "--steps", "5"],
        status: 1,
        text: b"usage\n",
    },
];

// The text of a text is that text.
#[test]
fn shows_programs(rt: HostRuntime) -> Result<(), Fail> {
    for row in &ROWS {
        let name = row.name;
        let (status, text) = answer_of(rt.alloc(), row.program, row.words)?;
        assert_eq!(rt; status, row.status, "in the row of {name}");
        assert_eq!(rt; text.bytes(), row.text, "in the row of {name}");
        if status == 0 {
            let (status, again) = answer_of(rt.alloc(), text.bytes(), row.words)?;
            assert_eq!(rt; status, 0, "again in the row of {name}");
            assert_eq!(rt; again.bytes(), row.text, "again in the row of {name}");
        }
    }
    Ok(())
}
