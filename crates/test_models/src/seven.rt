//! The canonical text of the scenario that seed 7 makes with 20 nodes and 50 frames, worked out outside of this repository.

/// Its lines.
pub const SEVEN: &str = "\
profile 1
frames 50
sends 2
node 1 229798
node 2 37568
node 3 38796
node 4 207844
node 5 24117
node 6 48206
node 7 2002
node 8 209112
node 9 167969
node 10 108747
node 11 199241
node 12 141385
node 13 39412
node 14 124892
node 15 163823
node 16 83139
node 17 107408
node 18 71525
node 19 11115
node 20 162104
rate 1 0 -11
rate 2 0 15
rate 3 0 -6
rate 4 0 14
rate 5 0 2
rate 6 0 -20
rate 7 0 -12
rate 8 0 -12
rate 9 0 11
rate 10 0 13
rate 11 0 8
rate 12 0 0
rate 13 0 6
rate 14 0 8
rate 15 0 -8
rate 16 0 -8
rate 17 0 -8
rate 18 0 7
rate 19 0 20
rate 20 0 15
host 0 1
host 1 20
link 1 2
link 1 3
link 1 4
link 1 11
link 1 16
link 1 19
link 1 20
link 2 1
link 2 7
link 2 9
link 2 12
link 2 13
link 2 14
link 2 15
link 3 1
link 3 5
link 3 8
link 3 10
link 3 15
link 3 16
link 3 20
link 4 1
link 4 6
link 4 13
link 5 3
link 5 17
link 5 19
link 6 4
link 6 8
link 7 2
link 7 15
link 7 17
link 8 3
link 8 6
link 8 12
link 9 2
link 9 19
link 10 3
link 10 18
link 11 1
link 11 15
link 12 2
link 12 8
link 12 14
link 12 17
link 12 19
link 12 20
link 13 2
link 13 4
link 14 2
link 14 12
link 14 20
link 15 2
link 15 3
link 15 7
link 15 11
link 15 18
link 16 1
link 16 3
link 17 5
link 17 7
link 17 12
link 18 10
link 18 15
link 18 20
link 19 1
link 19 5
link 19 9
link 19 12
link 20 1
link 20 3
link 20 12
link 20 14
link 20 18
on 0 1
on 0 2
on 0 3
on 0 4
on 0 5
on 0 6
on 0 7
on 0 8
on 0 9
on 0 10
on 0 11
on 0 12
on 0 13
on 0 14
on 0 15
on 0 16
on 0 17
on 0 18
on 0 19
on 0 20
stream 0 2 0 5
stream 0 3 0 13
stream 0 4 0 12
stream 0 5 0 9
stream 0 6 0 16
stream 0 7 0 11
stream 0 8 0 11
stream 0 9 0 5
stream 0 10 0 7
stream 0 11 0 12
stream 0 12 0 10
stream 0 13 0 16
stream 0 14 0 16
stream 0 15 0 8
stream 0 16 0 9
stream 0 17 0 9
stream 0 18 0 11
stream 0 19 0 4
stream 0 20 0 16
put 0 4 0 0000
put 0 8 0 0000
put 0 12 0 0000
put 0 16 0 0000
put 0 20 0 0000
put 1 3 0 0001
put 1 7 0 0001
put 1 11 0 0001
put 1 15 0 0001
put 1 19 0 0001
put 2 2 0 0002
put 2 6 0 0002
put 2 10 0 0002
put 2 14 0 0002
put 2 18 0 0002
put 3 5 0 0003
put 3 9 0 0003
put 3 13 0 0003
put 3 17 0 0003
put 4 4 0 0004
put 4 8 0 0004
put 4 12 0 0004
put 4 16 0 0004
put 4 20 0 0004
put 5 3 0 0005
put 5 7 0 0005
put 5 11 0 0005
put 5 15 0 0005
put 5 19 0 0005
put 6 2 0 0006
put 6 6 0 0006
put 6 10 0 0006
put 6 14 0 0006
put 6 18 0 0006
put 7 5 0 0007
put 7 9 0 0007
put 7 13 0 0007
put 7 17 0 0007
put 8 4 0 0008
put 8 8 0 0008
put 8 12 0 0008
put 8 16 0 0008
put 8 20 0 0008
put 9 3 0 0009
put 9 7 0 0009
put 9 11 0 0009
put 9 15 0 0009
put 9 19 0 0009
put 10 2 0 000a
put 10 6 0 000a
put 10 10 0 000a
put 10 14 0 000a
put 10 18 0 000a
put 11 5 0 000b
put 11 9 0 000b
put 11 13 0 000b
put 11 17 0 000b
put 12 4 0 000c
put 12 8 0 000c
put 12 12 0 000c
put 12 16 0 000c
put 12 20 0 000c
put 13 3 0 000d
put 13 7 0 000d
put 13 11 0 000d
put 13 15 0 000d
put 13 19 0 000d
put 14 2 0 000e
put 14 6 0 000e
put 14 10 0 000e
put 14 14 0 000e
put 14 18 0 000e
put 15 5 0 000f
put 15 9 0 000f
put 15 13 0 000f
put 15 17 0 000f
put 16 4 0 0010
put 16 8 0 0010
put 16 12 0 0010
put 16 16 0 0010
put 16 20 0 0010
put 17 3 0 0011
put 17 7 0 0011
put 17 11 0 0011
put 17 15 0 0011
put 17 19 0 0011
put 18 2 0 0012
put 18 6 0 0012
put 18 10 0 0012
put 18 14 0 0012
put 18 18 0 0012
put 19 5 0 0013
put 19 9 0 0013
put 19 13 0 0013
put 19 17 0 0013
put 20 4 0 0014
put 20 8 0 0014
put 20 12 0 0014
put 20 16 0 0014
put 20 20 0 0014
put 21 3 0 0015
put 21 7 0 0015
put 21 11 0 0015
put 21 15 0 0015
put 21 19 0 0015
put 22 2 0 0016
put 22 6 0 0016
put 22 10 0 0016
put 22 14 0 0016
put 22 18 0 0016
put 23 5 0 0017
put 23 9 0 0017
put 23 13 0 0017
put 23 17 0 0017
put 24 4 0 0018
put 24 8 0 0018
put 24 12 0 0018
put 24 16 0 0018
put 24 20 0 0018
off 25 1
put 25 3 0 0019
put 25 7 0 0019
put 25 11 0 0019
put 25 15 0 0019
put 25 19 0 0019
put 26 2 0 001a
put 26 6 0 001a
put 26 10 0 001a
put 26 14 0 001a
put 26 18 0 001a
put 27 5 0 001b
put 27 9 0 001b
put 27 13 0 001b
put 27 17 0 001b
put 28 4 0 001c
put 28 8 0 001c
put 28 12 0 001c
put 28 16 0 001c
put 28 20 0 001c
put 29 3 0 001d
put 29 7 0 001d
put 29 11 0 001d
put 29 15 0 001d
put 29 19 0 001d
put 30 2 0 001e
put 30 6 0 001e
put 30 10 0 001e
put 30 14 0 001e
put 30 18 0 001e
put 31 5 0 001f
put 31 9 0 001f
put 31 13 0 001f
put 31 17 0 001f
put 32 4 0 0020
put 32 8 0 0020
put 32 12 0 0020
put 32 16 0 0020
put 32 20 0 0020
put 33 3 0 0021
put 33 7 0 0021
put 33 11 0 0021
put 33 15 0 0021
put 33 19 0 0021
put 34 2 0 0022
put 34 6 0 0022
put 34 10 0 0022
put 34 14 0 0022
put 34 18 0 0022
put 35 5 0 0023
put 35 9 0 0023
put 35 13 0 0023
put 35 17 0 0023
put 36 4 0 0024
put 36 8 0 0024
put 36 12 0 0024
put 36 16 0 0024
put 36 20 0 0024
put 37 3 0 0025
put 37 7 0 0025
put 37 11 0 0025
put 37 15 0 0025
put 37 19 0 0025
put 38 2 0 0026
put 38 6 0 0026
put 38 10 0 0026
put 38 14 0 0026
put 38 18 0 0026
put 39 5 0 0027
put 39 9 0 0027
put 39 13 0 0027
put 39 17 0 0027
put 40 4 0 0028
put 40 8 0 0028
put 40 12 0 0028
put 40 16 0 0028
put 40 20 0 0028
put 41 3 0 0029
put 41 7 0 0029
put 41 11 0 0029
put 41 15 0 0029
put 41 19 0 0029
put 42 2 0 002a
put 42 6 0 002a
put 42 10 0 002a
put 42 14 0 002a
put 42 18 0 002a
put 43 5 0 002b
put 43 9 0 002b
put 43 13 0 002b
put 43 17 0 002b
put 44 4 0 002c
put 44 8 0 002c
put 44 12 0 002c
put 44 16 0 002c
put 44 20 0 002c
put 45 3 0 002d
put 45 7 0 002d
put 45 11 0 002d
put 45 15 0 002d
put 45 19 0 002d
put 46 2 0 002e
put 46 6 0 002e
put 46 10 0 002e
put 46 14 0 002e
put 46 18 0 002e
put 47 5 0 002f
put 47 9 0 002f
put 47 13 0 002f
put 47 17 0 002f
put 48 4 0 0030
put 48 8 0 0030
put 48 12 0 0030
put 48 16 0 0030
put 48 20 0 0030
put 49 3 0 0031
put 49 7 0 0031
put 49 11 0 0031
put 49 15 0 0031
put 49 19 0 0031
lose 0 5 9 3 2
lose 0 7 10 4 16
lose 0 14 11 17 3
lose 0 16 4 7 19
lose 0 17 11 16 18
lose 0 21 11 11 2
lose 0 23 7 19 12
lose 0 24 6 11 10
lose 0 33 8 5 7
lose 0 36 6 14 13
lose 1 4 4 6 17
lose 1 5 9 10 4
lose 1 6 1 1 18
lose 1 13 10 15 1
lose 1 17 8 15 14
lose 1 22 0 11 18
lose 1 29 5 2 3
lose 1 30 7 16 8
lose 1 39 7 4 20
lose 1 42 8 11 3
lose 2 0 2 2 14
lose 2 5 7 9 15
lose 2 7 6 13 7
lose 2 15 2 8 14
lose 2 19 6 1 3
lose 2 22 8 6 5
lose 2 27 10 11 20
lose 2 34 2 20 1
lose 2 36 2 18 8
lose 2 40 8 7 9
lose 3 1 3 12 18
lose 3 2 2 13 18
lose 3 8 3 5 9
lose 3 10 3 1 14
lose 3 12 7 11 14
lose 3 28 3 19 10
lose 3 31 3 20 10
lose 3 34 10 4 15
lose 3 36 7 6 7
lose 4 1 4 1 4
lose 4 1 6 4 17
lose 4 2 1 18 9
lose 4 4 7 16 1
lose 4 9 8 11 17
lose 4 25 2 3 12
lose 4 25 4 7 1
lose 4 34 4 2 4
lose 4 36 7 10 1
lose 4 41 9 10 16
lose 5 5 0 5 16
lose 5 9 5 2 20
lose 5 9 7 19 10
lose 5 23 8 20 8
lose 5 25 4 16 1
lose 5 29 9 4 1
lose 5 37 7 4 18
lose 5 38 6 19 6
lose 5 39 4 2 12
lose 5 40 5 4 7
lose 6 7 5 19 2
lose 6 12 4 16 10
lose 6 14 7 10 15
lose 6 20 2 20 8
lose 6 20 3 7 8
lose 6 26 5 1 2
lose 6 26 6 18 10
lose 6 32 7 14 19
lose 6 40 6 19 7
lose 7 2 6 9 5
lose 7 10 8 2 10
lose 7 19 1 4 12
lose 7 21 0 5 3
lose 7 28 5 10 16
lose 7 29 7 15 12
lose 7 32 11 3 2
lose 7 36 9 9 17
lose 7 39 1 1 2
lose 7 39 9 2 12
lose 8 4 5 5 13
lose 8 9 4 3 15
lose 8 9 7 13 5
lose 8 14 5 17 9
lose 8 16 1 13 6
lose 8 16 5 15 13
lose 8 21 3 3 5
lose 8 22 3 12 17
lose 8 23 8 18 11
lose 8 28 9 18 9
lose 9 2 6 14 11
lose 9 15 9 11 2
lose 9 20 5 7 15
lose 9 23 2 12 16
lose 9 27 0 3 11
lose 9 30 10 17 3
lose 9 36 6 4 15
lose 9 40 9 13 20
lose 10 0 1 2 3
lose 10 0 9 11 9
lose 10 10 11 13 6
lose 10 16 9 17 8
lose 10 22 5 15 19
lose 10 27 3 15 19
lose 10 38 10 11 8
lose 10 39 11 1 14
lose 10 41 1 9 20
lose 11 3 5 2 8
lose 11 4 4 8 14
lose 11 16 7 8 16
lose 11 17 9 10 7
lose 11 25 1 19 3
lose 11 31 10 10 20
lose 11 35 10 13 12
lose 11 36 1 5 15
lose 11 36 8 15 6
lose 11 38 1 6 20
lose 12 5 4 2 20
lose 12 7 6 16 7
lose 12 10 1 19 3
lose 12 22 10 4 18
lose 12 24 0 10 19
lose 12 25 10 6 11
lose 12 29 7 12 8
lose 12 32 4 9 8
lose 12 32 6 16 11
lose 13 3 1 9 20
lose 13 3 1 17 15
lose 13 12 6 6 4
lose 13 14 1 5 20
lose 13 20 9 14 16
lose 13 22 3 1 7
lose 13 30 11 8 6
lose 13 34 10 8 4
lose 13 40 11 4 17
lose 14 3 6 9 15
lose 14 17 3 10 19
lose 14 17 5 4 9
lose 14 21 5 17 14
lose 14 26 4 1 4
lose 14 28 1 13 2
lose 14 34 1 1 18
lose 14 34 8 8 19
lose 14 37 7 20 8
lose 14 38 6 4 11
lose 15 4 5 13 19
lose 15 8 4 18 17
lose 15 9 0 13 1
lose 15 18 11 6 2
lose 15 22 3 19 6
lose 15 33 6 13 18
lose 15 34 6 13 17
lose 15 35 2 13 18
lose 15 37 1 18 15
lose 16 7 10 5 15
lose 16 14 8 8 16
lose 16 16 6 9 19
lose 16 20 9 12 17
lose 16 25 11 18 3
lose 16 29 7 3 17
lose 16 35 10 9 18
lose 16 36 3 17 8
lose 16 36 7 18 16
lose 17 2 6 17 12
lose 17 11 8 10 6
lose 17 15 6 2 15
lose 17 15 6 7 12
lose 17 20 4 9 15
lose 17 23 11 19 15
lose 17 26 10 15 19
lose 17 32 6 11 2
lose 17 38 7 1 17
lose 17 41 10 11 14
lose 18 1 8 7 6
lose 18 9 6 12 9
lose 18 13 6 6 15
lose 18 13 11 4 9
lose 18 16 0 6 9
lose 18 16 3 11 10
lose 18 17 11 9 11
lose 18 18 9 2 15
lose 18 30 2 11 12
lose 18 40 3 13 18
lose 19 1 4 20 10
lose 19 3 4 9 16
lose 19 10 4 3 8
lose 19 11 4 16 18
lose 19 12 5 5 7
lose 19 14 11 10 20
lose 19 24 7 10 5
lose 19 37 3 7 5
lose 20 3 5 12 1
lose 20 7 3 11 18
lose 20 7 6 20 19
lose 20 11 3 20 7
lose 20 11 6 1 8
lose 20 11 6 11 19
lose 20 13 9 2 16
lose 20 15 11 6 3
lose 20 33 0 13 4
lose 20 36 4 3 10
lose 21 1 4 10 8
lose 21 3 0 18 5
lose 21 3 10 5 17
lose 21 7 10 2 9
lose 21 10 9 17 8
lose 21 13 8 14 17
lose 21 17 11 16 12
lose 21 18 4 11 10
lose 22 0 11 11 16
lose 22 2 0 10 11
lose 22 4 10 3 11
lose 22 14 3 12 20
lose 22 23 3 17 8
lose 22 24 10 18 14
lose 22 25 5 6 11
lose 22 28 7 17 8
lose 22 37 3 16 5
lose 22 40 10 15 18
lose 23 0 6 5 11
lose 23 10 7 3 7
lose 23 15 5 8 10
lose 23 16 3 11 20
lose 23 21 1 2 14
lose 23 21 5 15 5
lose 23 28 5 3 2
lose 23 36 7 6 19
lose 23 38 11 20 7
lose 23 40 8 17 13
lose 24 3 2 14 17
lose 24 10 0 9 7
lose 24 12 7 6 10
lose 24 20 8 1 20
lose 24 22 10 5 15
lose 24 29 0 3 15
lose 24 31 1 8 6
lose 24 32 10 4 14
lose 24 34 7 16 11
lose 24 40 9 12 20
lose 25 1 1 5 12
lose 25 2 0 1 11
lose 25 3 2 5 4
lose 25 3 5 18 2
lose 25 19 8 12 13
lose 25 28 2 3 11
lose 25 29 3 18 13
lose 25 31 6 4 20
lose 25 36 6 17 2
lose 25 36 7 15 3
lose 26 0 3 15 20
lose 26 0 4 8 2
lose 26 3 7 17 5
lose 26 7 10 12 19
lose 26 13 7 12 11
lose 26 26 0 12 17
lose 26 32 10 3 11
lose 26 34 0 6 15
lose 26 34 5 1 12
lose 26 41 1 6 17
lose 27 4 7 5 14
lose 27 5 9 13 15
lose 27 10 0 17 5
lose 27 16 2 9 14
lose 27 22 0 15 9
lose 27 25 6 20 6
lose 27 28 6 8 1
lose 27 31 10 9 3
lose 27 38 2 5 20
lose 27 40 3 19 11
lose 28 0 5 20 5
lose 28 0 7 13 6
lose 28 1 11 13 18
lose 28 3 7 5 14
lose 28 9 1 8 17
lose 28 16 9 15 8
lose 28 18 0 19 4
lose 28 23 11 6 19
lose 28 32 10 17 1
lose 28 38 3 10 15
lose 29 2 10 11 4
lose 29 4 4 19 14
lose 29 14 0 8 15
lose 29 15 2 19 2
lose 29 15 3 16 5
lose 29 16 2 10 16
lose 29 16 5 20 2
lose 29 17 0 20 15
lose 29 28 11 6 11
lose 29 34 3 15 17
lose 30 5 5 17 5
lose 30 6 5 18 8
lose 30 16 6 9 10
lose 30 31 3 13 7
lose 30 34 1 2 1
lose 30 37 8 2 18
lose 30 39 4 2 18
lose 30 39 7 12 3
lose 31 5 11 9 20
lose 31 6 9 17 15
lose 31 7 5 9 14
lose 31 17 2 14 2
lose 31 19 1 1 4
lose 31 24 0 4 18
lose 31 27 9 16 4
lose 31 27 10 4 5
lose 31 28 1 4 18
lose 31 37 0 8 6
lose 32 3 5 6 4
lose 32 7 1 17 16
lose 32 16 2 14 17
lose 32 17 0 11 18
lose 32 20 6 8 2
lose 32 33 0 5 16
lose 32 36 3 17 4
lose 32 38 9 2 17
lose 32 38 9 4 20
lose 32 41 0 7 20
lose 33 1 7 15 12
lose 33 4 10 16 6
lose 33 8 4 13 15
lose 33 17 7 5 16
lose 33 19 10 12 20
lose 33 21 2 17 2
lose 33 33 11 15 18
lose 33 39 6 11 4
lose 34 3 8 11 9
lose 34 14 6 1 17
lose 34 14 6 10 12
lose 34 17 9 10 14
lose 34 24 8 12 18
lose 34 30 6 12 10
lose 34 33 11 20 2
lose 34 39 0 3 18
lose 34 41 1 12 8
lose 35 4 2 6 9
lose 35 5 0 20 1
lose 35 8 10 12 13
lose 35 11 1 8 20
lose 35 11 10 9 1
lose 35 16 0 7 15
lose 35 30 8 5 11
lose 35 34 10 3 18
lose 35 37 9 10 9
lose 35 41 9 14 15
lose 36 1 2 12 5
lose 36 3 6 1 18
lose 36 10 5 6 5
lose 36 12 2 11 17
lose 36 15 11 6 15
lose 36 29 8 19 5
lose 36 29 9 9 19
lose 36 34 7 11 7
lose 37 3 9 9 7
lose 37 3 9 19 4
lose 37 6 1 10 7
lose 37 22 2 17 20
lose 37 23 5 14 1
lose 37 24 8 9 11
lose 37 25 5 7 20
lose 37 29 6 12 10
lose 37 41 8 16 1
lose 37 42 10 19 3
lose 38 4 5 12 3
lose 38 7 2 19 7
lose 38 11 10 6 12
lose 38 13 1 1 16
lose 38 17 1 6 19
lose 38 21 8 14 13
lose 38 40 2 3 2
lose 38 41 3 9 4
lose 39 4 5 12 15
lose 39 7 7 9 7
lose 39 10 10 12 7
lose 39 13 7 17 16
lose 39 17 0 10 19
lose 39 18 3 9 20
lose 39 33 5 2 18
lose 39 40 1 14 3
lose 39 42 1 1 8
lose 40 1 7 5 1
lose 40 7 9 16 1
lose 40 11 8 6 7
lose 40 17 1 13 17
lose 40 20 4 2 14
lose 40 24 9 1 13
lose 40 27 7 19 20
lose 40 29 3 16 19
lose 40 39 2 15 16
lose 41 7 2 13 16
lose 41 8 3 17 11
lose 41 11 3 16 8
lose 41 16 8 15 11
lose 41 25 7 18 6
lose 41 27 10 19 18
lose 41 32 7 14 3
lose 41 35 3 19 8
lose 41 40 8 15 20
lose 42 1 5 20 5
lose 42 5 1 10 2
lose 42 8 11 17 5
lose 42 10 6 3 16
lose 42 11 11 1 10
lose 42 20 8 1 18
lose 42 29 7 14 8
lose 42 33 5 12 16
lose 42 36 10 3 11
lose 42 38 1 1 11
lose 43 1 4 19 15
lose 43 4 0 17 7
lose 43 5 10 15 1
lose 43 12 3 6 4
lose 43 14 1 20 7
lose 43 14 11 19 5
lose 43 20 9 16 9
lose 43 22 0 20 19
lose 43 27 0 7 11
lose 43 35 11 4 16
lose 44 9 4 5 2
lose 44 13 11 17 16
lose 44 16 1 19 10
lose 44 17 3 3 14
lose 44 20 7 12 11
lose 44 26 0 20 12
lose 44 27 3 9 8
lose 44 30 0 8 5
lose 44 33 5 14 8
lose 44 34 3 14 6
lose 45 2 2 14 8
lose 45 4 2 18 16
lose 45 15 6 5 19
lose 45 19 10 19 2
lose 45 21 2 16 3
lose 45 24 5 3 7
lose 45 25 2 11 20
lose 45 31 4 13 12
lose 45 34 3 10 2
lose 45 35 5 10 8
lose 46 4 1 13 17
lose 46 8 9 6 16
lose 46 9 9 4 2
lose 46 10 3 12 13
lose 46 18 0 3 10
lose 46 18 5 18 4
lose 46 29 3 14 4
lose 46 36 2 17 11
lose 46 39 1 6 8
lose 46 41 8 11 14
lose 47 7 11 3 16
lose 47 17 9 13 16
lose 47 19 7 3 17
lose 47 21 3 16 14
lose 47 25 5 18 13
lose 47 28 8 8 15
lose 47 28 11 16 14
lose 47 34 6 11 2
lose 47 38 11 10 14
lose 47 40 3 6 16
lose 48 0 1 4 18
lose 48 0 8 19 13
lose 48 2 4 4 13
lose 48 9 6 1 20
lose 48 13 6 10 18
lose 48 23 9 10 8
lose 48 24 5 6 11
lose 48 26 5 4 17
lose 48 27 2 2 18
lose 48 27 5 4 18
lose 49 0 1 7 17
lose 49 5 5 18 3
lose 49 5 6 11 9
lose 49 6 7 13 18
lose 49 7 1 12 13
lose 49 18 0 3 2
lose 49 28 6 6 7
lose 49 37 11 6 17
lose 49 38 11 5 10
";
