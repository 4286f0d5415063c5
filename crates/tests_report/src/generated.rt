//! Whole generated files.

use cs_generate::generate_text;
use std::test::Fail;

/// Each template is generated, with the constants of its functions.
#[test]
fn files_are_made_of_six_templates(rt: HostRuntime) -> Result<(), Fail> {
    let alloc = rt.alloc();
    for (seed, size, wanted) in [
        (0, 0, ""),
        (
            0,
            6,
            "int f0(int x){return 2/x;}\nint f1(int x){if(x==0)return 0;return 15/x;}\nint f2(int *p){if(p)return *p+28;return *p;}\nint f3(int x,int y){if(x<y)return 41;return x-y;}\nint f4(int n){int i;int s=0;for(i=0;i<n;i++)s=s+54;return s;}\nint f5(void){int *p=malloc(sizeof(int));if(!p)return 0;*p=67;free(p);return *p;}\n",
        ),
        (
            999_999_999,
            2,
            "int f0(int x,int y){if(x<y)return 39;return x-y;}\nint f1(int n){int i;int s=0;for(i=0;i<n;i++)s=s+52;return s;}\n",
        ),
    ] {
        let made = generate_text(alloc, seed, size)?;
        assert_eq!(rt; made.as_slice(), wanted.as_bytes(), "{seed} {size}");
    }
    assert_eq!(rt; generate_text(alloc, 0, 6)?.len(), 310);
    Ok(())
}
