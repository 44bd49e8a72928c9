//! Runs of links with 64b/66b lanes: worked examples, with the reports of a program that shares no
//! code with this one.
use crate::tests::outcome;
use jesd_base::Status;
use std::test::Fail;

/// An input and its whole report.
type Row = (&'static [u8], &'static [u8]);

const TABLE: [Row; 6] = [
    // frames on a clean line, with FEC
    (
        b"jesd,1\nlink,cfec,1,1,2,1,16,16,0,0,1,0,1\ntiming,64,2,8,8,7,10,0,1,8\nrun,270,frames\n",
        b"link,32,74,592,10,1856\nhunt,0\narm,237\nrelease,269\nframe,2152,ok,0300\nframe,2154,ok,0301\nframe,2156,ok,0302\nframe,2158,ok,0303\nend,270,1068,4,4,0,0,0,10\n",
    ),
    // a burst of nine bits over two blocks: each frame is fixed
    (
        b"jesd,1\nlink,cfec,1,1,2,1,16,16,0,0,1,0,1\ntiming,64,2,8,8,7,10,0,1,8\nrun,270,frames\nflip,0,12997,5\nflip,0,13004,4\n",
        b"link,32,74,592,10,1856\nhunt,0\narm,237\nrelease,269\nframe,2152,fixed,0300\nframe,2154,fixed,0301\nframe,2156,fixed,0302\nframe,2158,fixed,0303\nend,270,1068,4,0,4,0,0,10\n",
    ),
    // two bits 17 apart are no burst: each frame is bad
    (
        b"jesd,1\nlink,cfec,1,1,2,1,16,16,0,0,1,0,1\ntiming,64,2,8,8,7,10,0,1,8\nrun,270,frames\nflip,0,12938,1\nflip,0,12955,1\n",
        b"link,32,74,592,10,1856\nhunt,0\narm,237\nrelease,269\nframe,2152,bad,8300\nframe,2154,bad,4301\nframe,2156,bad,0202\nframe,2158,bad,03a3\nend,270,1068,4,0,0,4,0,10\n",
    ),
    // a burst over the end of a multiblock: 132 frames, each one fixed
    (
        b"jesd,1\nlink,cfec,1,1,2,1,16,16,0,0,1,0,1\ntiming,64,2,8,8,7,10,0,1,8\nrun,302,frames\nflip,0,15043,5\nflip,0,15050,4\n",
        b"link,32,74,592,10,1856\nhunt,0\narm,237\nrelease,269\nframe,2152,fixed,0300\nframe,2154,fixed,0301\nframe,2156,fixed,0302\nframe,2158,fixed,0303\nframe,2160,fixed,0304\nframe,2162,fixed,0305\nframe,2164,fixed,0306\nframe,2166,fixed,0307\nframe,2168,fixed,0308\nframe,2170,fixed,0309\nframe,2172,fixed,030a\nframe,2174,fixed,030b\nframe,2176,fixed,030c\nframe,2178,fixed,030d\nframe,2180,fixed,030e\nframe,2182,fixed,030f\nframe,2184,fixed,0310\nframe,2186,fixed,0311\nframe,2188,fixed,0312\nframe,2190,fixed,0313\nframe,2192,fixed,0314\nframe,2194,fixed,0315\nframe,2196,fixed,0316\nframe,2198,fixed,0317\nframe,2200,fixed,0318\nframe,2202,fixed,0319\nframe,2204,fixed,031a\nframe,2206,fixed,031b\nframe,2208,fixed,031c\nframe,2210,fixed,031d\nframe,2212,fixed,031e\nframe,2214,fixed,031f\nframe,2216,fixed,0320\nframe,2218,fixed,0321\nframe,2220,fixed,0322\nframe,2222,fixed,0323\nframe,2224,fixed,0324\nframe,2226,fixed,0325\nframe,2228,fixed,0326\nframe,2230,fixed,0327\nframe,2232,fixed,0328\nframe,2234,fixed,0329\nframe,2236,fixed,032a\nframe,2238,fixed,032b\nframe,2240,fixed,032c\nframe,2242,fixed,032d\nframe,2244,fixed,032e\nframe,2246,fixed,032f\nframe,2248,fixed,0330\nframe,2250,fixed,0331\nframe,2252,fixed,0332\nframe,2254,fixed,0333\nframe,2256,fixed,0334\nframe,2258,fixed,0335\nframe,2260,fixed,0336\nframe,2262,fixed,0337\nframe,2264,fixed,0338\nframe,2266,fixed,0339\nframe,2268,fixed,033a\nframe,2270,fixed,033b\nframe,2272,fixed,033c\nframe,2274,fixed,033d\nframe,2276,fixed,033e\nframe,2278,fixed,033f\nframe,2280,fixed,0340\nframe,2282,fixed,0341\nframe,2284,fixed,0342\nframe,2286,fixed,0343\nframe,2288,fixed,0344\nframe,2290,fixed,0345\nframe,2292,fixed,0346\nframe,2294,fixed,0347\nframe,2296,fixed,0348\nframe,2298,fixed,0349\nframe,2300,fixed,034a\nframe,2302,fixed,034b\nframe,2304,fixed,034c\nframe,2306,fixed,034d\nframe,2308,fixed,034e\nframe,2310,fixed,034f\nframe,2312,fixed,0350\nframe,2314,fixed,0351\nframe,2316,fixed,0352\nframe,2318,fixed,0353\nframe,2320,fixed,0354\nframe,2322,fixed,0355\nframe,2324,fixed,0356\nframe,2326,fixed,0357\nframe,2328,fixed,0358\nframe,2330,fixed,0359\nframe,2332,fixed,035a\nframe,2334,fixed,035b\nframe,2336,fixed,035c\nframe,2338,fixed,035d\nframe,2340,fixed,035e\nframe,2342,fixed,035f\nframe,2344,fixed,0360\nframe,2346,fixed,0361\nframe,2348,fixed,0362\nframe,2350,fixed,0363\nframe,2352,fixed,0364\nframe,2354,fixed,0365\nframe,2356,fixed,0366\nframe,2358,fixed,0367\nframe,2360,fixed,0368\nframe,2362,fixed,0369\nframe,2364,fixed,036a\nframe,2366,fixed,036b\nframe,2368,fixed,036c\nframe,2370,fixed,036d\nframe,2372,fixed,036e\nframe,2374,fixed,036f\nframe,2376,fixed,0370\nframe,2378,fixed,0371\nframe,2380,fixed,0372\nframe,2382,fixed,0373\nframe,2384,fixed,0374\nframe,2386,fixed,0375\nframe,2388,fixed,0376\nframe,2390,fixed,0377\nframe,2392,fixed,0378\nframe,2394,fixed,0379\nframe,2396,fixed,037a\nframe,2398,fixed,037b\nframe,2400,fixed,037c\nframe,2402,fixed,037d\nframe,2404,fixed,037e\nframe,2406,fixed,037f\nframe,2408,fixed,0380\nframe,2410,fixed,0381\nframe,2412,fixed,0382\nframe,2414,fixed,0383\nend,302,1196,132,0,132,0,0,10\n",
    ),
    // as many ticks as the bound on the first delivery asks
    (
        b"jesd,1\nlink,cfec,1,1,2,1,16,16,0,0,1,0,1\ntiming,64,2,8,8,7,10,0,1,8\nrun,1900,none\n",
        b"link,32,74,592,10,1856\nhunt,0\narm,237\nrelease,269\nend,1900,7588,6524,6524,0,0,0,10\n",
    ),
    // frames of three octets with CRC-12, up to three in a tick
    (
        b"jesd,1\nlink,ccrc,1,1,3,1,24,24,0,0,1,0,3\ntiming,96,2,8,8,7,10,0,1,8\nrun,400,frames\nflip,0,19272,1\n",
        b"link,96,106,848,42,3936\nhunt,0\narm,301\nrelease,397\nframe,3176,bad,000300\nframe,3179,bad,000301\nframe,3182,bad,000302\nframe,3185,bad,000303\nframe,3188,bad,000304\nframe,3191,bad,000305\nframe,3194,ok,000306\nframe,3197,ok,000307\nend,400,1059,8,2,0,6,0,42\n",
    ),
];

#[test]
fn runs_of_blocks(rt: HostRuntime) -> Result<(), Fail> {
    let alloc = rt.alloc();
    for (at, (input, text)) in TABLE.iter().enumerate() {
        let (got, written) = outcome(&rt, alloc, &["run"], input)?;
        assert_eq!(rt; got, Status::Done, "at {at}");
        assert_eq!(rt; written.as_slice(), *text, "at {at}");
    }
    Ok(())
}
